// All elements of a load or a store: refusals 9 to 15, and how many elements have a byte.
#![tactic(auto)]

ghost use Rattle.std.specs.Prelude.{◌≡◌, true, false, ◌≤◌, ◌<◌, length};
ghost use Rattle.refusals.specs.Refusals.{stop_at};
ghost use Rattle.tensor_ranges.specs.Layouts.{layout_ok};
ghost use Rattle.addressing.specs.Rules.{elements_of};
ghost use Rattle.addressing.specs.Valid.{SizedAccess, Planned};
ghost use Rattle.sheet.specs.Sizes.{rank_places, matrix_places};
ghost use Rattle.accesses.specs.Refusals.{element_outcome, other_rank, blocks_one, store_blocked, elements_refusal, placed_one, checked_by, checked_elements, checked_access};
ghost use Rattle.accesses.specs.Entries.{Near, entry_of, entry_outcome, Surveyed, Told};

pub mod rows;

use addressing::{Access, Plan};
use clashes::{DISCARDED, FILLED};
use dimensions::LAYOUT_NUMBERS;
use outcomes::Outcome;
use refusals::{BLOCKED_STORE, BYTE_TWICE, RANKS_DIFFER, Stop, UNALIGNED_BASE};
use sheet::Layout;
use sheet::sizes::PLACES;

// An access's refusal, and where it is not refused the number of elements with a byte.
#[derive(Clone, Copy)]
pub struct Checked {
    pub stop: Stop,
    pub placed: usize,
}

// The first refused element and, where there is none, the number of elements with a byte.
#[derive(Clone, Copy)]
pub struct Tally {
    pub stop: Stop,
    pub placed: usize,
}

// Room for a survey's entries.
pub fn no_entries() -> [u32; PLACES]
    ensures { length result ≡ matrix_places }
{
    [0; PLACES]
}

// An element's entry: 0 for a skipped one, one more than its byte for one that has a byte, and two numbers past all bytes.
pub fn entry(o: Outcome) -> u32
    requires { Near o }
    ensures { result ≡ entry_of o }
{
    match o {
        Outcome::Skipped => 0,
        Outcome::Filled(_) => FILLED,
        Outcome::Discarded => DISCARDED,
        Outcome::Placed(b) => b as u32 + 1,
    }
}

// The outcome that an entry stands for, where filled elements take these bits.
#[tactic(auto, unfolding(numbers::specs::Choice::pick, crate::specs::Entries::entry_outcome))]
pub fn outcome_of(entry: u32, fill: u32) -> Outcome
    ensures { result ≡ entry_outcome fill entry }
{
    if entry == 0 {
        return Outcome::Skipped;
    }
    if entry < FILLED {
        return Outcome::Placed(entry as usize - 1);
    }
    if entry == FILLED {
        Outcome::Filled(fill)
    } else {
        Outcome::Discarded
    }
}

pub fn placed_one(o: Outcome) -> usize
    ensures { (result ≡ placed_one o) × (result ≤ 1) }
{
    match o {
        Outcome::Skipped => 0,
        Outcome::Filled(_) => 0,
        Outcome::Discarded => 0,
        Outcome::Placed(_) => 1,
    }
}

// Fewer elements, or rows of fewer, take longer row by row than one by one.
const FEW: usize = 8;

const SHORT: u16 = 3;

// Whether the elements go row by row: without a view, where not all dimensions are fixed.
fn by_rows(viewed: bool, numbers: &[u16; LAYOUT_NUMBERS], rank: u8, count: usize) -> bool
    requires { rank ≤ rank_places }
    ensures { result ≡ true → (viewed ≡ false) × (0 < rank) }
{
    FEW <= count
        && !viewed
        && 0 < rank
        && SHORT <= dimensions::dimension_at(numbers, usize::from(rank) - 1).span
}

// The elements in order, up to the first that is refused, and each one's entry: row by row, or each located by itself.
pub fn survey(entries: &mut [u32; PLACES], p: Plan) -> Tally
    requires { Planned p × (length entries.old ≡ matrix_places) }
    ensures { Surveyed (element_outcome p.access) (elements_of p.access) result entries.new }
{
    let permutation = p.access.view.permutation;
    let sizes = p.sizes;
    let strides = p.strides;
    let numbers = p.numbers;
    if by_rows(p.access.viewed, &numbers, p.tail.rank, p.count) {
        return rows::survey_rows(entries, p);
    }
    let mut placed = 0;
    for k in 0..p.count {
        let r = addressing::locate(p, &permutation, &sizes, &strides, &numbers, k as u32);
        if r.refusal != 0 {
            return Tally {
                stop: Stop {
                    number: r.refusal,
                    element: k,
                },
                placed,
            };
        }
        entries[k] = entry(r.outcome);
        placed += placed_one(r.outcome);
    }
    Tally {
        stop: Stop {
            number: 0,
            element: 0,
        },
        placed,
    }
}

fn refuse(number: u8, element: usize) -> Checked
    ensures { result ≡ checked_by (stop_at number element) 0 }
{
    Checked {
        stop: Stop { number, element },
        placed: 0,
    }
}

fn accept(placed: usize) -> Checked
    ensures { result ≡ checked_by (stop_at 0 0) placed }
{
    Checked {
        stop: Stop {
            number: 0,
            element: 0,
        },
        placed,
    }
}

// Refusals 12 to 15. The search of 15 is entered where a test that goes once over the elements found a byte twice.
fn check_elements(entries: &mut [u32; PLACES], p: Plan) -> Checked
    requires { Planned p × (length entries.old ≡ matrix_places) }
    ensures entries_len { length entries.new ≡ matrix_places }
    ensures value { result ≡ checked_elements (element_outcome p.access) (elements_of p.access) (elements_refusal p.access.load (element_outcome p.access) (elements_of p.access)) }
    ensures told { result.stop.number ≡ 0 → Told p.access entries.new }
{
    let s = survey(entries, p);
    if s.stop.number != 0 {
        return refuse(s.stop.number, s.stop.element);
    }
    if p.access.load || clashes::bytes_apart(entries, p.count) {
        return accept(s.placed);
    }
    refuse(BYTE_TWICE, clashes::first_clash(entries, p.count))
}

// Refusal 10.
#[tactic(auto, unfolding(numbers::specs::Choice::pick, numbers::specs::Choice::both, crate::specs::Refusals::other_rank))]
fn other_rank(a: Access) -> bool
    ensures { result ≡ other_rank a }
{
    a.viewed && !a.view.sized && a.view.rank != a.layout.rank
}

#[tactic(auto, using(tensor_ranges::specs::Laws::Facts::layout_most))]
fn blocks_one(l: Layout) -> bool
    requires { layout_ok l ≡ true }
    ensures { result ≡ blocks_one l }
{
    l.dimensions[..usize::from(l.rank)]
        .iter()
        .all(|d| d.block <= 1)
}

// Refusal 11.
#[tactic(auto, unfolding(numbers::specs::Choice::pick, numbers::specs::Choice::both, crate::specs::Refusals::store_blocked))]
fn store_blocked(a: Access) -> bool
    requires { layout_ok a.layout ≡ true }
    ensures { result ≡ store_blocked a }
{
    !a.load && !blocks_one(a.layout)
}

// Refusals 9 to 15 of a load or a store, in order, and how many of its elements have a byte. The entries are lent room: where it is
// accepted, they stand for the outcomes of its elements.
pub fn check_access(entries: &mut [u32; PLACES], a: Access) -> Checked
    requires { SizedAccess a × (length entries.old ≡ matrix_places) }
    ensures entries_len { length entries.new ≡ matrix_places }
    ensures value { result ≡ checked_access a }
    ensures told { result.stop.number ≡ 0 → Told a entries.new }
{
    if a.base % 16 != 0 {
        return refuse(UNALIGNED_BASE, 0);
    }
    if other_rank(a) {
        return refuse(RANKS_DIFFER, 0);
    }
    if store_blocked(a) {
        return refuse(BLOCKED_STORE, 0);
    }
    check_elements(entries, addressing::plan_of(a))
}

// Counts the divisions that rule 3 takes over a sheet's loads and stores, for those who time layouts: no other job asks.
#![tactic(auto)]

ghost use Rattle.std.specs.Prelude.{◌≡◌, ◌*◌, ◌≤◌, ◌<◌};
ghost use Rattle.sheet.specs.Sizes.{rank_places, step_places, matrix_places, memory_limit};
ghost use Rattle.sheet_reader.specs.Parts.{sheet_of, Outlined};
ghost use Rattle.addressing.specs.Rules.{elements_of};
ghost use Rattle.addressing.specs.Valid.{Planned};
ghost use Rattle.checking.specs.Checking.{checked};
ghost use Rattle.accepted.specs.Accepted.{ClearAccess};
ghost use Rattle.dividing.specs.Divisions.{element_divisions, access_divisions, divisions, total};
ghost use Rattle.dividing.specs.Dividing.{counted};

use addressing::{Access, INDEX_LIMIT, Indexed, Plan};
use checking::{checks, turns};
use refusals::Refusal;
use sheet::sizes::RANK;
use sheet_reader::{Given, PARTS};

// A refusal with no count, or how many divisions there are.
#[derive(Clone, Copy)]
pub struct DivisionsAnswer {
    pub refusal: Refusal,
    pub divisions: usize,
}

// Element number k. The arrays are the plan's and its view's, as for `locate`.
#[tactic(auto, using(crate::specs::Laws::Indices::large_divisions, crate::specs::Laws::Indices::small_divisions, crate::specs::Theorems::skipped_none, crate::specs::Laws::Few::divided_most))]
fn element_divisions(
    p: Plan,
    permutation: &[u8; RANK],
    sizes: &[u32; RANK],
    strides: &[u64; RANK],
    k: u32,
) -> u32
    requires planned { Planned p × (k < elements_of p.access) }
    requires permutation_value { (permutation.now ≡ p.access.view.permutation) × (sizes.now ≡ p.sizes) × (strides.now ≡ p.strides) }
    ensures { (result ≡ element_divisions p.access k) × (result ≤ rank_places) }
{
    match addressing::index_of(p, permutation, sizes, strides, k) {
        Indexed::Skipped => 0,
        Indexed::Index(i) => {
            if INDEX_LIMIT <= i {
                return 0;
            }
            spans::span_coordinates(p.access.layout, i as u32).divisions
        }
    }
}

#[tactic(auto, using(addressing::specs::Laws::Plans::plan_count))]
fn plan_divisions(p: Plan) -> usize
    requires { Planned p }
    ensures { (result ≡ total (access_divisions p.access)) × (result ≤ matrix_places * rank_places) }
{
    // The arrays are not lent from the plan, which would be copied for it: more stack, and more instructions.
    let permutation = p.access.view.permutation;
    let sizes = p.sizes;
    let strides = p.strides;
    let mut sum = 0;
    for k in 0..p.count {
        sum += element_divisions(p, &permutation, &sizes, &strides, k as u32) as usize;
    }
    sum
}

// An access without rows is that of no element.
#[tactic(auto, using(crate::specs::Laws::Few::bare_none, addressing::specs::Laws::Plans::planned_access, accesses::proofs::Laws::Accepted::accepted_valid))]
fn access_divisions(access: Access) -> usize
    requires { 0 < access.rows → ClearAccess access }
    ensures { (result ≡ total (access_divisions access)) × (result ≤ matrix_places * rank_places) }
{
    if access.rows < 1 {
        return 0;
    }
    plan_divisions(addressing::plan_of(access))
}

// The steps in order, from empty registers.
fn sheet_divisions(s: &[u8], parts: &[usize; PARTS], given: Given, memory: usize) -> usize
    requires { Outlined s.now parts.now given × (memory ≤ memory_limit) × ((checked (sheet_of s.now) memory).refusal.number ≡ 0) }
    ensures { (result ≡ total (divisions (sheet_of s.now) memory)) × (result ≤ step_places * (matrix_places * rank_places)) }
{
    let mut types = registers::empty_types();
    let mut sum: usize = 0;
    for k in 0..given.steps {
        let turn = turns::turn_at(s, parts, given, types, memory, k);
        let step = turn.step;
        let access = turn.access;
        sum += access_divisions(access);
        let after = checks::step_types(types, step);
        types = after;
    }
    sum
}

// Counts for a memory of a length, without a memory.
#[tactic(auto, using(crate::specs::Theorems::counted_accepted, crate::specs::Theorems::counted_refused))]
pub fn count_divisions(sheet: &[u8], memory_len: usize) -> DivisionsAnswer
    ensures { result ≡ counted sheet.now memory_len }
{
    let mut parts = sheet_parts::no_parts();
    let judged = checking::judge(sheet, &mut parts, memory_len);
    let refused = judged.answer.refusal;
    if 0 < refused.number {
        return DivisionsAnswer {
            refusal: refused,
            divisions: 0,
        };
    }
    DivisionsAnswer {
        refusal: refusals::not_refused(),
        divisions: sheet_divisions(sheet, &parts, judged.given, memory_len),
    }
}

// Where one element of a load or a store goes (document 01, "Where an element goes").
#![tactic(auto)]

ghost use Rattle.std.specs.Prelude.{◌≡◌, ◌*◌, ◌/◌, ◌^◌, ◌%◌, ◌≤◌, ◌<◌};
ghost use Rattle.sheet.specs.Sizes.{rank_places};
ghost use Rattle.dimensions.specs.Dimensions.{lead, tail_of, tail_numbers, part_limit};
ghost use Rattle.addressing.specs.Plans.{planned};
ghost use Rattle.addressing.specs.Rules.{elements_of, low_bits, addressed, reached, indexed, located, refused, answered};
ghost use Rattle.addressing.specs.Valid.{ValidAccess, Planned};

pub mod clips;
pub mod rows;
pub mod tensors;

use clamps::Clamped;
use dimensions::{LAYOUT_NUMBERS, Tail};
use outcomes::Outcome;
use refusals::{INDEX_TOO_LARGE, OUTSIDE_MEMORY, OUTSIDE_UNDEFINED};
use sheet::sizes::RANK;
use sheet::{Layout, View};
use view_indices::wide;

// 2 to the 32nd, from which on an index gets 12.
pub const INDEX_LIMIT: u64 = 4294967296;

// A load or a store of a matrix: its layout, its view where it is `viewed`, its base, the bytes of an element and of memory, the sides.
#[derive(Clone, Copy)]
pub struct Access {
    pub load: bool,
    pub layout: Layout,
    pub viewed: bool,
    pub view: View,
    pub base: u32,
    pub size: usize,
    pub memory: usize,
    pub rows: u32,
    pub columns: u32,
}

// What the elements of an access share: how many there are, rule 1's width, where there is a view rule 2's sizes and strides, rule 4's bits of the clamp
// value, and for rules 3 to 5 the dimensions that are not fixed, with their numbers.
#[derive(Clone, Copy)]
pub struct Plan {
    pub access: Access,
    pub count: usize,
    pub width: u32,
    pub fill: u32,
    pub sizes: [u32; RANK],
    pub strides: [u64; RANK],
    pub tail: Tail,
    pub numbers: [u16; LAYOUT_NUMBERS],
}

// The index that rules 1 and 2 give, or a position outside the clip.
#[derive(Clone, Copy)]
pub enum Indexed {
    Skipped,
    Index(u64),
}

// An element's outcome, or a refusal's number with Skipped beside it.
#[derive(Clone, Copy)]
pub struct Located {
    pub refusal: u8,
    pub outcome: Outcome,
}

// The low bits of the clamp value, for an element of `size` bytes.
fn low_bits(value: u32, size: usize) -> u32
    requires { (0 < size) × (size ≤ 4) × (size ≡ 3 → ⊥) }
    ensures { result ≡ value % 2 ^ (8 * size) }
{
    if size == 1 {
        return value % 256;
    }
    if size == 2 {
        return value % 65536;
    }
    value
}

// What is found out once for all elements of an access.
pub fn plan_of(a: Access) -> Plan
    requires { ValidAccess a }
    ensures { (result ≡ planned a) × Planned result }
{
    let mut numbers = dimensions::layout_numbers(a.layout);
    let tail = dimensions::tail_of(&mut numbers, a.layout);
    Plan {
        access: a,
        count: (a.rows * a.columns) as usize,
        width: a.columns.min(wide(a.view.columns.span)),
        fill: low_bits(a.layout.clamp, a.size),
        sizes: view_indices::sizes_of(a.viewed, a.layout, a.view),
        strides: view_indices::strides_of(a.viewed, a.layout, a.view),
        tail,
        numbers,
    }
}

pub fn refuse(number: u8) -> Located
    ensures { result ≡ refused number }
{
    Located {
        refusal: number,
        outcome: Outcome::Skipped,
    }
}

pub fn answer(o: Outcome) -> Located
    ensures { result ≡ answered o }
{
    Located {
        refusal: 0,
        outcome: o,
    }
}

// Rule 5: the byte of a tensor index, which is below 2 to the 31st, so that nothing wraps.
#[tactic(auto, unfolding(numbers::specs::Choice::pick, crate::specs::Rules::addressed))]
pub fn address(a: Access, t: u32) -> Located
    requires { ValidAccess a × (t ≤ rank_places * part_limit) }
    ensures { result ≡ addressed a t }
{
    let byte = a.base as usize + t as usize * a.size;
    if byte + a.size <= a.memory {
        answer(Outcome::Placed(byte))
    } else {
        refuse(OUTSIDE_MEMORY)
    }
}

// Refusal 12, then rules 3 to 5.
fn reach(a: Access, numbers: &[u16; LAYOUT_NUMBERS], tail: Tail, fill: u32, index: u64) -> Located
    requires { ValidAccess a × (fill ≡ low_bits a) × (numbers.now ≡ tail_numbers a.layout) × (tail ≡ tail_of a.layout) × (tail.start ≤ lead a.layout * part_limit) }
    ensures { result ≡ reached a index }
{
    if INDEX_LIMIT <= index {
        return refuse(INDEX_TOO_LARGE);
    }
    let rank = usize::from(tail.rank);
    match tensors::tensor_index(a.load, a.layout, numbers, tail, rank, index as u32) {
        Clamped::Refused => refuse(OUTSIDE_UNDEFINED),
        Clamped::Discarded => answer(Outcome::Discarded),
        Clamped::Filled => answer(Outcome::Filled(fill)),
        Clamped::At(t) => address(a, t),
    }
}

// Rules 1 and 2: element number k. Without a view the index is that number.
pub fn index_of(
    p: Plan,
    permutation: &[u8; RANK],
    sizes: &[u32; RANK],
    strides: &[u64; RANK],
    k: u32,
) -> Indexed
    requires planned { Planned p × (k < elements_of p.access) }
    requires permutation_value { (permutation.now ≡ p.access.view.permutation) × (sizes.now ≡ p.sizes) × (strides.now ≡ p.strides) }
    ensures { result ≡ indexed p.access (k / p.access.columns) (k % p.access.columns) }
{
    if !p.access.viewed {
        return Indexed::Index(u64::from(k));
    }
    let v = p.access.view;
    let row = k / p.access.columns;
    let col = k % p.access.columns;
    if clips::outside_view(v, row, col) {
        return Indexed::Skipped;
    }
    let index = clips::clip_index(v, p.width, row, col);
    Indexed::Index(view_indices::view_index(v, permutation, sizes, strides, index))
}

// Rules 1 to 5: element number k. The arrays are the plan's and its view's, lent so that they are not copied for each element.
#[tactic(auto, using(crate::specs::Laws::Plans::plan_fill, crate::proofs::Laws::plan_numbers, crate::proofs::Laws::plan_tail), unfolding(crate::specs::Rules::located))]
pub fn locate(
    p: Plan,
    permutation: &[u8; RANK],
    sizes: &[u32; RANK],
    strides: &[u64; RANK],
    numbers: &[u16; LAYOUT_NUMBERS],
    k: u32,
) -> Located
    requires planned { Planned p × (k < elements_of p.access) }
    requires permutation_value { (permutation.now ≡ p.access.view.permutation) × (sizes.now ≡ p.sizes) × (strides.now ≡ p.strides) × (numbers.now ≡ p.numbers) }
    ensures { result ≡ located p.access (k / p.access.columns) (k % p.access.columns) }
{
    match index_of(p, permutation, sizes, strides, k) {
        Indexed::Skipped => answer(Outcome::Skipped),
        Indexed::Index(i) => reach(p.access, numbers, p.tail, p.fill, i),
    }
}

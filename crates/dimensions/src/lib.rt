// A layout's dimensions as numbers, which can be lent, without the leading ones that are fixed.
#![tactic(auto)]

ghost use Rattle.std.specs.Prelude.{◌≡◌, true, ◌+◌, ◌*◌, ◌/◌, ◌≤◌, ◌<◌};
ghost use Rattle.tensor_ranges.specs.Layouts.{layout_ok};
ghost use Rattle.tensor_ranges.specs.Laws.Facts.{InSize};
ghost use Rattle.sheet.specs.Sizes.{rank_places, size_limit};
ghost use Rattle.dimensions.specs.Dimensions.{dimension_numbers, dimension_put, layout_numbers, dimension_in, fixed, fixed_part, lead, lead_start, tail_of, tail_numbers, part_limit};

use sheet::sizes::RANK;
use sheet::{Dimension, Layout};
use view_indices::wide;

// Block size, dimension, stride, offset, span.
const DIMENSION_NUMBERS: usize = 5;

// Those of all dimensions.
pub const LAYOUT_NUMBERS: usize = RANK * DIMENSION_NUMBERS;

// The dimensions of a layout after the leading ones that are fixed: how many there are, and what the fixed ones add to the tensor index.
#[derive(Clone, Copy)]
pub struct Tail {
    pub rank: u8,
    pub start: u32,
}

// The numbers of a dimension, one after the other.
fn put_dimension(numbers: &mut [u16; LAYOUT_NUMBERS], l: Layout, d: usize)
    requires { d < rank_places }
    ensures { numbers.new ≡ dimension_put l numbers.old d }
{
    let x = l.dimensions[d];
    let at = DIMENSION_NUMBERS * d;
    numbers[at] = x.block;
    numbers[at + 1] = x.size;
    numbers[at + 2] = x.stride;
    numbers[at + 3] = x.offset;
    numbers[at + 4] = x.span;
}

// A layout's dimensions as numbers, which can be lent.
pub fn layout_numbers(l: Layout) -> [u16; LAYOUT_NUMBERS]
    ensures { result ≡ layout_numbers l }
{
    let mut numbers = [0; LAYOUT_NUMBERS];
    for d in 0..RANK {
        put_dimension(&mut numbers, l, d);
    }
    numbers
}

pub fn dimension_at(numbers: &[u16; LAYOUT_NUMBERS], d: usize) -> Dimension
    requires { d < rank_places }
    ensures { result ≡ dimension_in numbers.now (dimension_numbers * d) }
{
    let at = DIMENSION_NUMBERS * d;
    Dimension {
        block: numbers[at],
        size: numbers[at + 1],
        stride: numbers[at + 2],
        offset: numbers[at + 3],
        span: numbers[at + 4],
    }
}

// A block size of 1 needs no division.
pub fn block_of(x: u32, size: u32) -> u32
    requires { 0 < size }
    ensures { result ≡ x / size }
{
    if size == 1 { x } else { x / size }
}

// Every element has the same coordinate in such a dimension.
#[tactic(auto, unfolding(numbers::specs::Choice::pick, numbers::specs::Choice::both, crate::specs::Dimensions::fixed))]
fn is_fixed(x: Dimension) -> bool
    ensures { result ≡ fixed x }
{
    x.span == 1 && x.offset < x.size
}

#[tactic(auto, using(crate::specs::Laws::Tails::part_most))]
fn fixed_part(x: Dimension) -> u32
    requires { InSize x.block × (x.offset < size_limit) }
    ensures { (result ≡ fixed_part x) × (result ≤ part_limit) }
{
    block_of(wide(x.offset), wide(x.block)) * wide(x.stride)
}

// How many leading dimensions are fixed, and what they add to the tensor index.
#[derive(Clone, Copy)]
struct Lead {
    count: u8,
    start: u32,
}

fn lead_of(numbers: &[u16; LAYOUT_NUMBERS], l: Layout) -> Lead
    requires { (layout_ok l ≡ true) × (numbers.now ≡ layout_numbers l) }
    ensures { (result.count ≡ lead l) × (result.start ≡ lead_start l (lead l)) × (result.start ≤ lead l * part_limit) }
{
    let mut start: u32 = 0;
    for d in 0..l.rank {
        let x = dimension_at(numbers, usize::from(d));
        if !is_fixed(x) {
            return Lead { count: d, start };
        }
        start += fixed_part(x);
    }
    Lead {
        count: l.rank,
        start,
    }
}

// What is left of a layout's numbers without the fixed ones: it is found out once for all elements of an access.
#[tactic(auto, using(tensor_ranges::specs::Laws::Facts::layout_most, crate::specs::Laws::Tails::lead_most))]
pub fn tail_of(numbers: &mut [u16; LAYOUT_NUMBERS], l: Layout) -> Tail
    requires { (layout_ok l ≡ true) × (numbers.old ≡ layout_numbers l) }
    ensures value { (result ≡ tail_of l) × (result.start ≤ lead l * part_limit) }
    ensures numbers_after { numbers.new ≡ tail_numbers l }
{
    let fixed = lead_of(numbers, l);
    let rank = l.rank - fixed.count;
    if 0 < fixed.count {
        let from = DIMENSION_NUMBERS * usize::from(fixed.count);
        let end = from + DIMENSION_NUMBERS * usize::from(rank);
        numbers.copy_within(from..end, 0);
    }
    Tail {
        rank,
        start: fixed.start,
    }
}

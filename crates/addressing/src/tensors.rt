// Rules 3 to 5.
ghost use Rattle.std.specs.Prelude.{◌≡◌, true, ◌+◌, ◌*◌, ◌≤◌, ◌<◌};
ghost use Rattle.tensor_ranges.specs.Layouts.{layout_ok};
ghost use Rattle.tensor_ranges.specs.Laws.Facts.{InSize};
ghost use Rattle.sheet.specs.Sizes.{size_limit};
ghost use Rattle.dimensions.specs.Dimensions.{lead, tail_of, tail_numbers, part_limit};
ghost use Rattle.addressing.specs.Rules.{part};
ghost use Rattle.addressing.specs.Rows.{up_to};
ghost use Rattle.addressing.specs.Valid.{AtMost};

use clamps::Clamped;
use dimensions::{LAYOUT_NUMBERS, Tail, block_of, dimension_at};
use sheet::{ClampMode, Dimension, Layout};
use spans::split_by;
use view_indices::wide;

// Rules 4 and 5 for a dimension at span coordinate s: at most 4,096 times 65,536, 2 to the 28th.
#[tactic(auto, using(dimensions::specs::Laws::Tails::part_most, clamps::proofs::Laws::Clamps::clamped_lt), unfolding(crate::specs::Rules::part))]
pub fn part(load: bool, mode: ClampMode, d: Dimension, s: u32) -> Clamped
    requires { InSize d.size × InSize d.block × (s < size_limit) }
    ensures { (result ≡ part load mode d s) × AtMost part_limit result }
{
    let c = clamps::shifted(s, wide(d.offset));
    match clamps::clamp(load, mode, c, wide(d.size)).clamped {
        Clamped::Refused => Clamped::Refused,
        Clamped::Discarded => Clamped::Discarded,
        Clamped::Filled => Clamped::Filled,
        Clamped::At(x) => Clamped::At(block_of(x, wide(d.block)) * wide(d.stride)),
    }
}

// Rules 3 to 5 in the fixed dimensions and in `rank` after them, where rule 3 leaves them this index. All dimensions that are outside have the same
// outcome, so that the last one decides as well as the first. A coordinate that is inside needs no rule of the mode. The fixed dimensions are done: the sum starts with what they add.
pub fn tensor_index(
    load: bool,
    l: Layout,
    numbers: &[u16; LAYOUT_NUMBERS],
    tail: Tail,
    rank: usize,
    index: u32,
) -> Clamped
    requires { (layout_ok l ≡ true) × (numbers.now ≡ tail_numbers l) × (tail ≡ tail_of l) × (tail.start ≤ lead l * part_limit) × (rank ≤ tail.rank) }
    ensures { (result ≡ up_to load l (lead l + rank) index) × AtMost ((lead l + rank) * part_limit) result }
{
    let mut sum = tail.start;
    let mut left = index;
    for d in (0..rank).rev() {
        let x = dimension_at(numbers, d);
        let s = split_by(left, wide(x.span));
        left = s.quotient;
        let c = (s.rest + wide(x.offset)) % 65536;
        if c < wide(x.size) {
            sum += block_of(c, wide(x.block)) * wide(x.stride);
            continue;
        }
        match part(load, l.mode, x, s.rest) {
            Clamped::Refused => return Clamped::Refused,
            Clamped::Discarded => return Clamped::Discarded,
            Clamped::Filled => return Clamped::Filled,
            Clamped::At(y) => sum += y,
        }
    }
    Clamped::At(sum)
}

// The same, once a row of elements and not once each, so that no coordinate takes a shorter way. It is a loop of its own: the compiler puts one that a
// single place calls where the elements go round, and calls one that two places share for each of them.
pub fn row_index(
    load: bool,
    l: Layout,
    numbers: &[u16; LAYOUT_NUMBERS],
    tail: Tail,
    rank: usize,
    index: u32,
) -> Clamped
    requires { (layout_ok l ≡ true) × (numbers.now ≡ tail_numbers l) × (tail ≡ tail_of l) × (tail.start ≤ lead l * part_limit) × (rank ≤ tail.rank) }
    ensures { (result ≡ up_to load l (lead l + rank) index) × AtMost ((lead l + rank) * part_limit) result }
{
    let mut sum = tail.start;
    let mut left = index;
    for d in (0..rank).rev() {
        let x = dimension_at(numbers, d);
        let s = split_by(left, wide(x.span));
        left = s.quotient;
        match part(load, l.mode, x, s.rest) {
            Clamped::Refused => return Clamped::Refused,
            Clamped::Discarded => return Clamped::Discarded,
            Clamped::Filled => return Clamped::Filled,
            Clamped::At(y) => sum += y,
        }
    }
    Clamped::At(sum)
}

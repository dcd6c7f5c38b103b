// Rule 3: the span coordinates of an index (document 01, "Where an element goes"), and the divisions that they take.
#![tactic(auto)]

ghost use Rattle.std.specs.Prelude.{◌≡◌, ltb};
ghost use Rattle.numbers.specs.Choice.{pick};
ghost use Rattle.spans.specs.Spans.{split_by, divided};

use sheet::Layout;
use sheet::sizes::RANK;

// An index's remainder and quotient by a span, and how many divisions that took: 0 or 1.
#[derive(Clone, Copy)]
pub struct Split {
    pub rest: u32,
    pub quotient: u32,
    pub divisions: u32,
}

// The span coordinates of an index, and how many divisions they took.
#[derive(Clone, Copy)]
pub struct Divided {
    pub coordinates: [u32; RANK],
    pub divisions: u32,
}

#[tactic(auto, unfolding(numbers::specs::Choice::pick))]
fn one_unless_zero(index: u32) -> u32
    ensures { result ≡ pick (ltb 0 index) 1 0 }
{
    if index == 0 { 0 } else { 1 }
}

// A division is the slowest part of an element: there is none by 1 and none of 0, and where the index is below the span a comparison stands in for it.
#[tactic(auto, using(crate::proofs::Laws::split_one, crate::proofs::Laws::split_below, crate::proofs::Laws::split_above))]
pub fn split_by(index: u32, span: u32) -> Split
    ensures { result ≡ split_by span index }
{
    if index < span {
        return Split {
            rest: index,
            quotient: 0,
            divisions: one_unless_zero(index),
        };
    }
    if span <= 1 {
        return Split {
            rest: 0,
            quotient: index,
            divisions: 0,
        };
    }
    Split {
        rest: index % span,
        quotient: index / span,
        divisions: 1,
    }
}

// Rule 3 for those who ask what it takes; an element of a load or a store needs each coordinate only once and keeps none.
pub fn span_coordinates(l: Layout, index: u32) -> Divided
    ensures { result ≡ divided l index }
{
    let mut coordinates = [0; RANK];
    let mut divisions: u32 = 0;
    let mut left = index;
    for d in (0..usize::from(l.rank).min(RANK)).rev() {
        let s = split_by(left, u32::from(l.dimensions[d].span));
        coordinates[d] = s.rest;
        divisions += s.divisions;
        left = s.quotient;
    }
    Divided {
        coordinates,
        divisions,
    }
}

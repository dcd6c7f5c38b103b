// The folds of a reduce's parts.
ghost use Rattle.std.specs.Prelude.{◌≡◌, ℕ, ◌+◌, ◌*◌, ◌^◌, ◌<◌, ◌≤◌};
ghost use Rattle.numbers.specs.Lists.{line};
ghost use Rattle.sheet.specs.Sizes.{side_places, matrix_places, element_places};
ghost use Rattle.reduces.specs.Parts.{folds, quad};

use sheet::Combine;
use sheet::sizes::{PLACES, SIDE};

// The folds of `count` parts whose first elements are `apart` places apart, each of `later` more elements in steps.
#[tactic(auto, unfolding(numbers::specs::Lists::line, crate::specs::Parts::folds, crate::specs::Parts::no_folds))]
pub fn fold_parts(
    elements: &[u32],
    kind: u8,
    combine: Combine,
    first: usize,
    apart: usize,
    step: usize,
    later: usize,
    count: usize,
) -> [u32; SIDE]
    requires { (first ≤ element_places) × (apart ≤ side_places) × (step ≤ side_places) × (later ≤ matrix_places) × (count ≤ side_places) }
    ensures { result ≡ folds elements.now kind combine first apart step later count }
{
    let mut out = [0u32; SIDE];
    for k in 0..count {
        out[k] = combines::fold(elements, kind, combine, first + k * apart, step, later);
    }
    out
}

// Two elements at a place and the two a row of n below them, combined.
#[tactic(auto, unfolding(combines::specs::Combining::folded))]
fn quad(elements: &[u32], kind: u8, combine: Combine, n: usize, first: usize) -> u32
    requires { (n ≤ side_places) × (first < 2 ^ 16) }
    ensures { result ≡ quad elements.now kind combine n first }
{
    let top = combines::combine(
        kind,
        combine,
        numbers::at(elements, first),
        numbers::at(elements, first + 1),
    );
    let three = combines::combine(kind, combine, top, numbers::at(elements, first + n));
    combines::combine(kind, combine, three, numbers::at(elements, first + n + 1))
}

// A row of a block: the blocks of 2 by 2 from a place on.
#[tactic(auto, unfolding(numbers::specs::Lists::line))]
pub fn quad_row(
    out: &mut [u32; PLACES],
    start: usize,
    elements: &[u32],
    kind: u8,
    combine: Combine,
    n: usize,
    first: usize,
    columns: usize,
)
    requires { (start + columns ≤ matrix_places) × (n ≤ side_places) × (first ≤ 2 * element_places) }
    ensures { out.new ≡ line out.old start (λ (j : ℕ). quad elements.now kind combine n (first + 2 * j)) columns }
{
    for j in 0..columns {
        out[start + j] = quad(elements, kind, combine, n, first + 2 * j);
    }
}

// How a reduce combines elements.
#![tactic(auto)]

ghost use Rattle.std.specs.Prelude.{◌≡◌, ℕ, ◌+◌, ◌*◌, ◌^◌, ◌<◌, ◌≤◌, get_or};
ghost use Rattle.sheet.specs.Sizes.{side_places, matrix_places};
ghost use Rattle.combines.specs.Combining.{combined, folded};

use sheet::Combine;

// Two elements of a kind combined.
#[tactic(auto, using(numbers::specs::Laws::Choice::calls))]
pub fn combine(kind: u8, combine: Combine, a: u32, b: u32) -> u32
    ensures { result ≡ combined kind combine a b }
{
    match combine {
        Combine::Add => kinds::wrapped_sum(kind, a, b),
        Combine::Min => if kinds::ordered(kind, a, b) { a } else { b },
        Combine::Max => if kinds::ordered(kind, a, b) { b } else { a },
        Combine::And => a & b,
        Combine::Or => a | b,
        Combine::Xor => a ^ b,
    }
}

// The element at a place combined with as many later ones, a step apart, in order.
#[tactic(auto, unfolding(crate::specs::Combining::folded))]
pub fn fold(
    elements: &[u32],
    kind: u8,
    combine: Combine,
    first: usize,
    step: usize,
    later: usize,
) -> u32
    requires { (first < 2 ^ 16) × (step ≤ side_places) × (later ≤ matrix_places) }
    ensures { result ≡ folded kind combine (λ (t : ℕ). get_or elements.now (first + t * step) 0) later }
{
    let mut all = numbers::at(elements, first);
    for t in 0..later {
        let next = numbers::at(elements, first + (t + 1) * step);
        all = self::combine(kind, combine, all, next);
    }
    all
}

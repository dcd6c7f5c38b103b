// The components of the input, modulo 2^32.
ghost use Rattle.std.specs.Prelude.{◌≡◌, ◌<◌, ◌≤◌, ◌^◌};
ghost use Rattle.numbers.specs.Remainders.{remainder};
ghost use Rattle.kinds.specs.Values.{value};
ghost use Rattle.memory.specs.Elements.{byte_of};
ghost use Rattle.sheet.specs.Sizes.{register_count, side_places, matrix_places};
ghost use Rattle.vectors.specs.Saturation.{below, saturated};
ghost use Rattle.vectors.specs.Components.{packed_kind, component_at};
ghost use Rattle.vectors.specs.Residues.{clamped, low_raised, high_raised, components_of};

use kinds::interpretations;
use sheet::VectorStep;
use sheet::sizes::SIDE;

// Components are modulo 2^32, and values are raised by it.
const WRAP: u64 = 4294967296;

// How far the values of a kind go below zero.
#[tactic(auto, using(numbers::specs::Laws::Choice::calls), unfolding(crate::specs::Saturation::below))]
fn below(kind: u8) -> u64
    ensures { result ≡ below kind }
{
    if kinds::signed(kind) {
        kinds::modulus(kind) / 2
    } else {
        0
    }
}

// The lowest value of a kind plus 2^32.
#[tactic(auto, using(crate::proofs::Laws::Saturation::below_most))]
fn low_raised(kind: u8) -> u64
    ensures { result ≡ low_raised kind }
{
    WRAP - below(kind)
}

// The highest value of a kind plus 2^32.
#[tactic(auto, using(crate::proofs::Laws::Saturation::below_half, crate::proofs::Laws::Saturation::above_most), unfolding(crate::specs::Saturation::above))]
fn high_raised(kind: u8) -> u64
    ensures { result ≡ high_raised kind }
{
    WRAP + (kinds::modulus(kind) - 1 - below(kind))
}

// The value of an element of the kind `from`, saturated to the range of a kind.
fn saturated(from: u8, kind: u8, x: u32) -> u32
    ensures { result ≡ remainder (saturated kind (value from x)) (2 ^ 32) }
{
    let nearest = kinds::raised(from, x).clamp(low_raised(kind), high_raised(kind));
    (nearest % WRAP) as u32
}

// Byte i of a word, the lowest being byte 0.
fn byte_of(word: u32, i: u32) -> u32
    requires { i < 4 }
    ensures { result ≡ byte_of word i }
{
    (word >> (8 * i)) % 256
}

// The kind of a packed component.
#[tactic(auto, using(numbers::specs::Laws::Choice::calls), unfolding(crate::specs::Components::packed_kind))]
fn packed_kind(interpretation: u8) -> u8
    ensures { result ≡ packed_kind interpretation }
{
    if interpretation == interpretations::PACKED_SIGNED {
        kinds::S8
    } else {
        kinds::U8
    }
}

// Component c of an input register of a kind.
#[tactic(auto, using(numbers::specs::Laws::Choice::calls), unfolding(crate::specs::Components::component_at))]
fn component(elements: &[u32], kind: u8, v: VectorStep, c: usize) -> u32
    requires { (v.input < register_count) × (c < matrix_places) }
    ensures { result ≡ remainder (component_at elements.now kind v c) (2 ^ 32) }
{
    if interpretations::is_packed(v.interpretation) {
        let word = numbers::at(elements, registers::place_of(v.input, c / 4));
        kinds::residue(packed_kind(v.interpretation), byte_of(word, (c % 4) as u32))
    } else {
        let x = numbers::at(elements, registers::place_of(v.input, c));
        saturated(kind, v.interpretation, x)
    }
}

// All components.
#[tactic(auto, unfolding(numbers::specs::Lists::line, crate::specs::Residues::components_of))]
pub fn components_of(elements: &[u32], kind: u8, v: VectorStep) -> [u32; SIDE]
    requires { (v.input < register_count) × (v.columns ≤ side_places) }
    ensures { result ≡ components_of elements.now kind v }
{
    let mut out = [0u32; SIDE];
    for c in 0..usize::from(v.columns) {
        out[c] = component(elements, kind, v, c);
    }
    out
}

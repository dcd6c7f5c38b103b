// When a vector step is refused.
ghost use Rattle.std.specs.Prelude.{◌≡◌};
ghost use Rattle.vectors.specs.Refusals.{input_agrees, memory_refusal};
ghost use Rattle.vectors.specs.Within.{last_end, last_inside};

use super::places;
use kinds::interpretations;
use refusals::{OUTSIDE_MEMORY, Stop, stop_at};
use registers::MatrixType;
use sheet::VectorStep;

// The input is K by 1, or of a packed interpretation u32 words, four components each.
#[tactic(auto, unfolding(crate::specs::Refusals::input_agrees, numbers::specs::Choice::both, numbers::specs::Choice::pick))]
pub fn input_agrees(t: MatrixType, v: VectorStep) -> bool
    ensures { result ≡ input_agrees t v }
{
    if t.columns != 1 {
        return false;
    }
    if interpretations::is_packed(v.interpretation) {
        t.kind == kinds::U32 && u16::from(t.rows) == u16::from(v.columns).div_ceil(4)
    } else {
        t.rows == v.columns
    }
}

// The byte past those of the last matrix element.
#[tactic(auto, using(kinds::specs::Laws::Widths::bytes_high), unfolding(crate::specs::Within::last_end))]
fn last_end(v: VectorStep) -> usize
    ensures { result ≡ last_end v }
{
    let row = u16::from(v.rows.saturating_sub(1));
    let column = u16::from(v.columns.saturating_sub(1));
    places::matrix_byte(v, row, column) + kinds::bytes(v.matrix)
}

// The last element of the matrix and the last of the bias lie in memory: then all do, and none is looked for.
#[tactic(auto, unfolding(crate::specs::Within::last_inside, numbers::specs::Choice::both, numbers::specs::Choice::pick))]
fn last_inside(v: VectorStep, memory: usize) -> bool
    ensures { result ≡ last_inside v memory }
{
    last_end(v) <= memory && (!v.biased || places::bias_byte(v, u16::from(v.rows)) <= memory)
}

// Refusal 14, at the first element outside memory.
pub fn memory_refusal(v: VectorStep, memory: usize) -> Stop
    ensures { result ≡ memory_refusal v memory }
{
    if last_inside(v, memory) {
        return stop_at(0, 0);
    }
    match (0..places::elements_of(v)).find(|e| memory < places::end_of(v, *e)) {
        Some(e) => stop_at(OUTSIDE_MEMORY, usize::from(e)),
        None => stop_at(0, 0),
    }
}

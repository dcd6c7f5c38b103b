// Vector steps: a matrix in memory times a vector in a register, plus a bias in memory.
#![tactic(auto)]

pub mod components;
pub mod places;
pub mod results;
pub mod stops;

ghost use Rattle.std.specs.Prelude.{◌≡◌, length};
ghost use Rattle.registers.specs.Grids.{block_on};
ghost use Rattle.vectors.specs.Refusals.{vector_refusal};
ghost use Rattle.vectors.specs.Results.{vector_type, vector_result};
ghost use Rattle.vectors.specs.Within.{VectorParts};

use refusals::{EMPTY_REGISTER, SHAPES_DISAGREE, Stop, stop_at};
use registers::MatrixType;
use sheet::VectorStep;
use sheet::sizes::PLACES;

// By the type of the input register and the memory's length: 7, 8 or 14.
#[tactic(auto, using(numbers::specs::Laws::Choice::calls), unfolding(crate::specs::Refusals::vector_refusal))]
pub fn vector_refusal(t: MatrixType, memory: usize, v: VectorStep) -> Stop
    ensures { result ≡ vector_refusal t memory v }
{
    if registers::is_empty(t) {
        stop_at(EMPTY_REGISTER, 0)
    } else if stops::input_agrees(t, v) {
        stops::memory_refusal(v, memory)
    } else {
        stop_at(SHAPES_DISAGREE, 0)
    }
}

pub fn vector_type(v: VectorStep) -> MatrixType
    ensures { result ≡ vector_type v }
{
    MatrixType {
        kind: v.kind,
        rows: v.rows,
        columns: 1,
    }
}

// What a step that is not refused makes; its input register has type t.
pub fn vector_block(
    out: &mut [u32; PLACES],
    elements: &[u32],
    memory: &[u8],
    t: MatrixType,
    v: VectorStep,
)
    requires { VectorParts v × ((vector_refusal t (length memory.now) v).number ≡ 0) }
    ensures { out.new ≡ block_on out.old v.rows 1 (vector_result elements.now t.kind memory.now v) }
{
    let components = components::components_of(elements, t.kind, v);
    results::result_block(out, memory, v, &components);
}

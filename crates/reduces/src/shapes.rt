// When a reduce is refused, and the type that it makes.
ghost use Rattle.std.specs.Prelude.{◌≡◌, ◌*◌, eqb};
ghost use Rattle.reduces.specs.Shapes.{reduce_agrees, reduce_refusal, reduced_type};

use refusals::{EMPTY_REGISTER, SHAPES_DISAGREE};
use registers::MatrixType;
use sheet::ReduceMode;

// A source side is even, and twice the result's.
fn twice(side: u8, half: u8) -> bool
    ensures { result ≡ eqb side (2 * half) }
{
    u16::from(side) == 2 * u16::from(half)
}

#[tactic(auto, unfolding(numbers::specs::Choice::both, numbers::specs::Choice::pick))]
fn reduce_agrees(t: MatrixType, rows: u8, columns: u8, mode: ReduceMode) -> bool
    ensures { result ≡ reduce_agrees t rows columns mode }
{
    match mode {
        ReduceMode::Row => rows == t.rows,
        ReduceMode::Column => columns == t.columns,
        ReduceMode::Both => true,
        ReduceMode::TwoByTwo => twice(t.rows, rows) && twice(t.columns, columns),
    }
}

#[tactic(auto, using(numbers::specs::Laws::Choice::calls), unfolding(crate::specs::Shapes::reduce_refusal))]
pub fn reduce_refusal(t: MatrixType, rows: u8, columns: u8, mode: ReduceMode) -> u8
    ensures { result ≡ reduce_refusal t rows columns mode }
{
    if registers::is_empty(t) {
        EMPTY_REGISTER
    } else if reduce_agrees(t, rows, columns, mode) {
        0
    } else {
        SHAPES_DISAGREE
    }
}

pub fn reduced_type(t: MatrixType, rows: u8, columns: u8) -> MatrixType
    ensures { result ≡ reduced_type t rows columns }
{
    MatrixType { rows, columns, ..t }
}

// When a multiply-add is refused.
ghost use Rattle.std.specs.Prelude.{◌≡◌};
ghost use Rattle.products.specs.Shapes.{multiply_agrees, multiply_refusal};

use refusals::{EMPTY_REGISTER, SHAPES_DISAGREE};
use registers::MatrixType;

#[tactic(auto, unfolding(crate::specs::Shapes::multiply_agrees, numbers::specs::Choice::both, numbers::specs::Choice::pick))]
fn multiply_agrees(a: MatrixType, b: MatrixType, c: MatrixType) -> bool
    ensures { result ≡ multiply_agrees a b c }
{
    a.rows == c.rows && a.columns == b.rows && b.columns == c.columns && kinds::word_kind(c.kind)
}

#[tactic(auto, unfolding(crate::specs::Shapes::multiply_refusal, numbers::specs::Choice::pick))]
pub fn multiply_refusal(a: MatrixType, b: MatrixType, c: MatrixType) -> u8
    ensures { result ≡ multiply_refusal a b c }
{
    if registers::is_empty(a) || registers::is_empty(b) || registers::is_empty(c) {
        EMPTY_REGISTER
    } else if multiply_agrees(a, b, c) {
        0
    } else {
        SHAPES_DISAGREE
    }
}

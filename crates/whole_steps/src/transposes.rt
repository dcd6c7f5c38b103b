// Transpose.
ghost use Rattle.std.specs.Prelude.{◌≡◌, ◌<◌};
ghost use Rattle.sheet.specs.Sizes.{register_count};
ghost use Rattle.registers.specs.Grids.{block_on};
ghost use Rattle.registers.specs.Sized.{SizedType};
ghost use Rattle.whole_steps.specs.Transposing.{transpose_refusal, transposed_type, transposed};

use refusals::EMPTY_REGISTER;
use registers::{MatrixType, blocks};
use sheet::sizes::PLACES;

#[tactic(auto, using(numbers::specs::Laws::Choice::calls), unfolding(crate::specs::Transposing::transpose_refusal))]
pub fn transpose_refusal(t: MatrixType) -> u8
    ensures { result ≡ transpose_refusal t }
{
    if registers::is_empty(t) {
        EMPTY_REGISTER
    } else {
        0
    }
}

pub fn transposed_type(t: MatrixType) -> MatrixType
    ensures { result ≡ transposed_type t }
{
    MatrixType {
        rows: t.columns,
        columns: t.rows,
        ..t
    }
}

pub fn transpose_block(out: &mut [u32; PLACES], elements: &[u32], source: u8, t: MatrixType)
    requires { (source < register_count) × SizedType t }
    ensures { out.new ≡ block_on out.old t.columns t.rows (transposed elements.now source t) }
{
    let rows = usize::from(t.rows);
    let columns = usize::from(t.columns);
    let first = registers::place_of(source, 0);
    blocks::spread(out, elements, first, 1, columns, columns, rows);
}

// Reduces: each part of the source folded once, and its value put where the result has it.
#![tactic(auto)]

pub mod parts;
pub mod shapes;

ghost use Rattle.std.specs.Prelude.{◌≡◌, ◌<◌, ◌≤◌};
ghost use Rattle.sheet.specs.Sizes.{register_count, side_places};
ghost use Rattle.sheet.specs.declared.ReduceMode.TheVariants.{TwoByTwo};
ghost use Rattle.registers.specs.Grids.{block_on};
ghost use Rattle.registers.specs.Sized.{SizedType};
ghost use Rattle.reduces.specs.Reducing.{reduced};

use registers::{MatrixType, blocks};
use sheet::sizes::PLACES;
use sheet::{Combine, ReduceMode};

// Each element of the result has the value of a block of 2 by 2.
fn quad_block(
    out: &mut [u32; PLACES],
    elements: &[u32],
    source: u8,
    t: MatrixType,
    combine: Combine,
    rows: usize,
    columns: usize,
)
    requires { (source < register_count) × SizedType t × (rows ≤ side_places) × (columns ≤ side_places) }
    ensures { out.new ≡ block_on out.old rows columns (reduced elements.now source t TwoByTwo combine) }
{
    let n = usize::from(t.columns);
    let first = registers::place_of(source, 0);
    for i in 0..rows {
        parts::quad_row(
            out,
            i * columns,
            elements,
            t.kind,
            combine,
            n,
            first + 2 * (i * n),
            columns,
        );
    }
}

// A row of the result has the value of the source's row, a column that of its column; or the whole result has that of the whole source.
pub fn reduce_block(
    out: &mut [u32; PLACES],
    elements: &[u32],
    source: u8,
    t: MatrixType,
    mode: ReduceMode,
    combine: Combine,
    rows: usize,
    columns: usize,
)
    requires { (source < register_count) × SizedType t × (0 < t.rows) × (rows ≤ side_places) × (columns ≤ side_places) }
    ensures { out.new ≡ block_on out.old rows columns (reduced elements.now source t mode combine) }
{
    let m = usize::from(t.rows);
    let n = usize::from(t.columns);
    let first = registers::place_of(source, 0);
    match mode {
        ReduceMode::Row => {
            let values = parts::fold_parts(elements, t.kind, combine, first, n, 1, n - 1, rows);
            blocks::spread(out, &values, 0, 1, 0, rows, columns);
        }
        ReduceMode::Column => {
            let values = parts::fold_parts(elements, t.kind, combine, first, 1, n, m - 1, columns);
            blocks::spread(out, &values, 0, 0, 1, rows, columns);
        }
        ReduceMode::Both => {
            let value = combines::fold(elements, t.kind, combine, first, 1, m * n - 1);
            blocks::fill_block(out, value, rows, columns);
        }
        ReduceMode::TwoByTwo => quad_block(out, elements, source, t, combine, rows, columns),
    }
}

// Where the elements of the matrix and of the bias lie in memory.
ghost use Rattle.std.specs.Prelude.{◌≡◌, ◌+◌, ◌*◌, ◌≤◌, ◌<◌, ◌^◌};
ghost use Rattle.vectors.specs.Places.{by_layout, row_step, column_step, matrix_byte, bias_byte, matrix_elements, elements_of, end_of};

use sheet::{MemoryLayout, VectorStep};

// The bytes of a bias element.
pub const BIAS_SIZE: usize = 4;

fn by_layout(layout: MemoryLayout, row_major: usize, column_major: usize) -> usize
    ensures { result ≡ by_layout layout row_major column_major }
{
    match layout {
        MemoryLayout::RowMajor => row_major,
        MemoryLayout::ColumnMajor => column_major,
    }
}

// The bytes from one row to the next.
#[tactic(auto, using(crate::proofs::Laws::by_layout_lt, kinds::specs::Laws::Widths::bytes_high), unfolding(crate::specs::Places::row_step))]
pub fn row_step(v: VectorStep) -> usize
    ensures { (result ≡ row_step v) × (result < 2 ^ 16) }
{
    by_layout(v.layout, usize::from(v.stride), kinds::bytes(v.matrix))
}

// The bytes from one column to the next.
#[tactic(auto, using(crate::proofs::Laws::by_layout_lt, kinds::specs::Laws::Widths::bytes_high), unfolding(crate::specs::Places::column_step))]
pub fn column_step(v: VectorStep) -> usize
    ensures { (result ≡ column_step v) × (result < 2 ^ 16) }
{
    by_layout(v.layout, kinds::bytes(v.matrix), usize::from(v.stride))
}

// The first byte of a row of the matrix. The bounds spare each caller the sum's.
pub fn row_byte(v: VectorStep, row: u16) -> usize
    ensures { (result ≡ v.offset + row * row_step v) × (result < 2 ^ 33) }
{
    v.offset as usize + usize::from(row) * row_step(v)
}

// The first byte of matrix element (row, column).
pub fn matrix_byte(v: VectorStep, row: u16, column: u16) -> usize
    ensures { (result ≡ matrix_byte v row column) × (result < 2 ^ 34) }
{
    row_byte(v, row) + usize::from(column) * column_step(v)
}

// The first byte of bias element i.
pub fn bias_byte(v: VectorStep, i: u16) -> usize
    ensures { (result ≡ bias_byte v i) × (result < 2 ^ 34) }
{
    v.bias as usize + BIAS_SIZE * usize::from(i)
}

fn matrix_elements(v: VectorStep) -> u16
    ensures { (result ≡ matrix_elements v) × (result ≤ 65025) }
{
    u16::from(v.rows) * u16::from(v.columns)
}

// How many elements the step reads from memory: the matrix's by row, then the bias's.
#[tactic(auto, using(numbers::specs::Laws::Choice::calls), unfolding(crate::specs::Places::elements_of))]
pub fn elements_of(v: VectorStep) -> u16
    ensures { result ≡ elements_of v }
{
    let matrix = matrix_elements(v);
    if v.biased {
        matrix + u16::from(v.rows)
    } else {
        matrix
    }
}

// The byte past those of an element.
#[tactic(auto, using(numbers::specs::Laws::Choice::calls, kinds::specs::Laws::Widths::bytes_high), unfolding(crate::specs::Places::end_of))]
pub fn end_of(v: VectorStep, e: u16) -> usize
    ensures { result ≡ end_of v e }
{
    let matrix = matrix_elements(v);
    if e < matrix {
        let columns = u16::from(v.columns);
        matrix_byte(v, e / columns, e % columns) + kinds::bytes(v.matrix)
    } else {
        bias_byte(v, e - matrix) + BIAS_SIZE
    }
}

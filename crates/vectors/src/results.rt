// The results of a vector step, from the matrix and the bias in memory and the listed components.
ghost use Rattle.std.specs.Prelude.{◌≡◌, true, ℕ, ◌+◌, ◌<◌, ◌≤◌, ◌^◌, length};
ghost use Rattle.numbers.specs.Remainders.{remainder};
ghost use Rattle.kinds.specs.Widths.{bytes_of};
ghost use Rattle.sheet.specs.Sizes.{side_places};
ghost use Rattle.registers.specs.Grids.{block_on};
ghost use Rattle.vectors.specs.Places.{bias_size, bias_byte};
ghost use Rattle.vectors.specs.Results.{bias_at, result_at};
ghost use Rattle.vectors.specs.Within.{LineInside, Inside};
ghost use Rattle.vectors.specs.Residues.{line_to, listed};

use super::places;
use places::BIAS_SIZE;
use sheet::VectorStep;
use sheet::sizes::{PLACES, SIDE};

// Elements of a kind, `across` bytes apart from `first` on, times the components: the sum modulo 2^32.
fn dot(
    memory: &[u8],
    first: usize,
    across: usize,
    kind: u8,
    components: &[u32; SIDE],
    columns: usize,
) -> u32
    requires { (columns ≤ side_places) × LineInside first across (bytes_of kind) columns (length memory.now) }
    ensures { result ≡ remainder (line_to memory.now first across kind (listed components.now) columns) (2 ^ 32) }
{
    let size = kinds::bytes(kind);
    let mut sum: u32 = 0;
    for c in 0..columns {
        let x = memory::element_at(memory, first + c * across, size);
        sum = sum.wrapping_add(kinds::residue(kind, x).wrapping_mul(components[c]));
    }
    sum
}

#[tactic(auto, using(numbers::specs::Laws::Choice::calls), unfolding(crate::specs::Results::bias_at))]
fn bias_at(memory: &[u8], v: VectorStep, row: u16) -> u32
    requires { v.biased ≡ true → bias_byte v row + bias_size ≤ length memory.now }
    ensures { result ≡ bias_at memory.now v row }
{
    if v.biased {
        memory::element_at(memory, places::bias_byte(v, row), BIAS_SIZE)
    } else {
        0
    }
}

// Row `row` of the matrix times the components, plus the bias.
fn result_at(memory: &[u8], v: VectorStep, components: &[u32; SIDE], row: u16) -> u32
    requires { (v.columns ≤ side_places) × (row < v.rows) × Inside v (length memory.now) }
    ensures { result ≡ result_at memory.now v (listed components.now) row }
{
    let first = places::row_byte(v, row);
    let across = places::column_step(v);
    let columns = usize::from(v.columns);
    let sum = dot(memory, first, across, v.matrix, components, columns);
    sum.wrapping_add(bias_at(memory, v, row))
}

#[tactic(auto, unfolding(numbers::specs::Lists::line))]
pub fn result_block(out: &mut [u32; PLACES], memory: &[u8], v: VectorStep, components: &[u32; SIDE])
    requires { (v.rows ≤ side_places) × (v.columns ≤ side_places) × Inside v (length memory.now) }
    ensures { out.new ≡ block_on out.old v.rows 1 (λ (i j : ℕ). result_at memory.now v (listed components.now) i) }
{
    for i in 0..v.rows {
        out[usize::from(i)] = result_at(memory, v, components, u16::from(i));
    }
}

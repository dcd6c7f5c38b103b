// The blocks of results: a lent block whose first places are given a matrix; what stands past them does not matter.
ghost use Rattle.std.specs.Prelude.{◌≡◌, ℕ, ◌+◌, ◌*◌, ◌≤◌, get_or};
ghost use Rattle.sheet.specs.Sizes.{side_places, element_places};
ghost use Rattle.registers.specs.Grids.{block_on};

use sheet::sizes::PLACES;

// Element (i, j) stands i steps down and j across in a list, from a place on.
#[tactic(auto, unfolding(numbers::specs::Lists::line))]
pub fn spread(
    out: &mut [u32; PLACES],
    from: &[u32],
    first: usize,
    down: usize,
    across: usize,
    rows: usize,
    columns: usize,
)
    requires { (first ≤ element_places) × (down ≤ side_places) × (across ≤ side_places) × (rows ≤ side_places) × (columns ≤ side_places) }
    ensures { out.new ≡ block_on out.old rows columns (λ (i j : ℕ). get_or from.now (first + i * down + j * across) 0) }
{
    for i in 0..rows {
        for j in 0..columns {
            out[i * columns + j] = numbers::at(from, first + i * down + j * across);
        }
    }
}

// A matrix of one value.
pub fn fill_block(out: &mut [u32; PLACES], value: u32, rows: usize, columns: usize)
    requires { (rows ≤ side_places) × (columns ≤ side_places) }
    ensures { out.new ≡ block_on out.old rows columns (λ (i j : ℕ). value) }
{
    out[..rows * columns].fill(value);
}

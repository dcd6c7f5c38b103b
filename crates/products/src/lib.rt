// Multiply-add on values modulo 2^32, each taken once.
#![tactic(auto)]

pub mod shapes;

ghost use Rattle.std.specs.Prelude.{◌≡◌, ℕ, ◌+◌, ◌*◌, ◌%◌, ◌^◌, ◌<◌, ◌≤◌, true, length, get_or};
ghost use Rattle.numbers.specs.Lists.{line};
ghost use Rattle.numbers.specs.Remainders.{remainder};
ghost use Rattle.kinds.specs.Values.{value};
ghost use Rattle.sheet.specs.Sizes.{register_count, side_places, matrix_places, element_places};
ghost use Rattle.registers.specs.Sized.{SizedType};
ghost use Rattle.registers.specs.Grids.{block_on};
ghost use Rattle.products.specs.Multiplying.{multiplied};
ghost use Rattle.products.specs.Shapes.{multiply_agrees};
ghost use Rattle.products.specs.Residues.{dot_of, dot_plus};

use registers::MatrixType;
use sheet::sizes::{PLACES, SIDE};

// The values of elements that stand from a place on, in the first places of a list.
#[tactic(auto, unfolding(numbers::specs::Lists::line))]
fn residues(out: &mut [u32], elements: &[u32], kind: u8, first: usize, count: usize)
    requires { (count ≤ length out.old) × (count ≤ matrix_places) × (first ≤ 2 * element_places) }
    ensures { out.new ≡ line out.old 0 (λ (e : ℕ). remainder (value kind (get_or elements.now (first + e) 0)) (2 ^ 32)) count }
{
    for e in 0..count {
        out[e] = kinds::residue(kind, numbers::at(elements, first + e));
    }
}

// The sum of products of a row and a column of y from q on, whose elements are n apart.
#[tactic(auto, unfolding(crate::specs::Residues::dot_of))]
fn dot(x: &[u32; SIDE], y: &[u32; PLACES], q: usize, n: usize, count: usize) -> u32
    requires { (count ≤ side_places) × (n ≤ side_places) × (q < n) }
    ensures { result ≡ dot_of (λ (t : ℕ). get_or x.now t 0) (λ (t : ℕ). get_or y.now (q + t * n) 0) count }
{
    let mut sum: u32 = 0;
    for t in 0..count {
        sum = sum.wrapping_add(x[t].wrapping_mul(y[q + t * n]));
    }
    sum
}

// A row of a block: the row x times each of n columns of y, plus the elements of a kind from a place on. Written out in the loop over
// the rows it takes 6% more instructions.
#[tactic(auto, unfolding(numbers::specs::Lists::line))]
fn product_row(
    out: &mut [u32; PLACES],
    start: usize,
    x: &[u32; SIDE],
    y: &[u32; PLACES],
    elements: &[u32],
    kind: u8,
    from: usize,
    inner: usize,
    n: usize,
)
    requires { (start + n ≤ matrix_places) × (from ≤ 2 * element_places) × (inner ≤ side_places) × (n ≤ side_places) }
    ensures { out.new ≡ line out.old start (λ (j : ℕ). (dot_of (λ (t : ℕ). get_or x.now t 0) (λ (t : ℕ). get_or y.now (j + t * n) 0) inner + remainder (value kind (get_or elements.now (from + j) 0)) (2 ^ 32)) % 2 ^ 32) n }
{
    for j in 0..n {
        let sum = dot(x, y, j, n, inner);
        out[start + j] = sum.wrapping_add(kinds::residue(kind, numbers::at(elements, from + j)));
    }
}

// Register a's matrix times y, plus register c's.
fn product(
    out: &mut [u32; PLACES],
    elements: &[u32],
    a: u8,
    ta: MatrixType,
    y: &[u32; PLACES],
    c: u8,
    tc: MatrixType,
)
    requires { ((a < register_count) × SizedType ta) × ((c < register_count) × SizedType tc) }
    ensures { out.new ≡ block_on out.old tc.rows tc.columns (dot_plus elements.now a ta y.now c tc) }
{
    let columns = usize::from(tc.columns);
    let inner = usize::from(ta.columns);
    let first = registers::place_of(a, 0);
    let base = registers::place_of(c, 0);
    let mut row = [0u32; SIDE];
    for i in 0..usize::from(tc.rows) {
        residues(&mut row, elements, ta.kind, first + i * inner, inner);
        product_row(
            out,
            i * columns,
            &row,
            y,
            elements,
            tc.kind,
            base + i * columns,
            inner,
            columns,
        );
    }
}

pub fn multiply_block(
    out: &mut [u32; PLACES],
    elements: &[u32],
    a: u8,
    ta: MatrixType,
    b: u8,
    tb: MatrixType,
    c: u8,
    tc: MatrixType,
)
    requires { ((a < register_count) × SizedType ta) × ((b < register_count) × SizedType tb) × ((c < register_count) × SizedType tc) × (multiply_agrees ta tb tc ≡ true) }
    ensures { out.new ≡ block_on out.old tc.rows tc.columns (multiplied elements.now a ta b tb c tc) }
{
    let mut y = [0u32; PLACES];
    let first = registers::place_of(b, 0);
    let count = registers::element_count(tb);
    residues(&mut y, elements, tb.kind, first, count);
    product(out, elements, a, ta, &y, c, tc);
}

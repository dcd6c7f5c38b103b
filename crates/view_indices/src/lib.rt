// Rule 2: an index through a view (document 01, "Where an element goes").
#![tactic(auto)]

ghost use Rattle.std.specs.Prelude.{◌≡◌, true, ℕ, ◌/◌, ◌%◌, ◌^◌, ◌≤◌, ◌<◌, get_or};
ghost use Rattle.tensor_ranges.specs.Layouts.{layout_ok};
ghost use Rattle.tensor_ranges.specs.Views.{view_ok};
ghost use Rattle.tensor_ranges.specs.Laws.Facts.{InSize};
ghost use Rattle.sheet.specs.Sizes.{rank_places, size_limit};
ghost use Rattle.view_indices.specs.Plans.{sizes_of, strides_of};
ghost use Rattle.view_indices.specs.Indices.{span_of, row_major, view_sizes, view_strides, view_index};

use sheet::sizes::RANK;
use sheet::{Layout, View};
use std::array;

// A number's remainder and quotient by another.
#[derive(Clone, Copy)]
pub struct Division {
    pub rest: u32,
    pub quotient: u32,
}

// A 16-bit number as a wider one.
pub fn wide(x: u16) -> u32
    ensures { (result ≡ x) × (result < 65536) }
{
    u32::from(x)
}

// A quotient of 0 needs no division, which is the slowest part of an element.
pub fn divide(x: u32, size: u32) -> Division
    requires { 0 < size }
    ensures { (result.rest ≡ x % size) × (result.quotient ≡ x / size) }
{
    if x < size {
        return Division {
            rest: x,
            quotient: 0,
        };
    }
    Division {
        rest: x % size,
        quotient: x / size,
    }
}

#[tactic(auto, unfolding(numbers::specs::Choice::pick, crate::specs::Indices::view_sizes))]
fn view_sizes(l: Layout, v: View) -> [u32; RANK]
    ensures { result ≡ view_sizes l v }
{
    if v.sized {
        array::from_fn(|k| u32::from(v.dimensions[k].size))
    } else {
        array::from_fn(|k| u32::from(l.dimensions[k].span))
    }
}

// The product of the spans after dimension i.
fn row_major(l: Layout, i: usize) -> u64
    requires { (layout_ok l ≡ true) × (i < rank_places) }
    ensures { (result ≡ row_major (span_of l) l.rank i) × (result ≤ size_limit ^ 4) }
{
    let mut product: u64 = 1;
    for j in i + 1..usize::from(l.rank) {
        product *= u64::from(l.dimensions[j].span);
    }
    product
}

#[tactic(auto, unfolding(numbers::specs::Choice::pick, crate::specs::Indices::view_strides))]
fn view_strides(l: Layout, v: View) -> [u64; RANK]
    requires { layout_ok l ≡ true }
    ensures { (result ≡ view_strides l v) × ((i : ℕ) → get_or result i 0 ≤ size_limit ^ 4) }
{
    if v.sized {
        array::from_fn(|k| u64::from(v.dimensions[k].stride))
    } else {
        array::from_fn(|i| row_major(l, i))
    }
}

// Rule 2's sizes and strides: zeros without a view.
#[tactic(auto, unfolding(numbers::specs::Choice::pick, crate::specs::Plans::sizes_of))]
pub fn sizes_of(viewed: bool, l: Layout, v: View) -> [u32; RANK]
    ensures { result ≡ sizes_of viewed l v }
{
    if viewed { view_sizes(l, v) } else { [0; RANK] }
}

#[tactic(auto, unfolding(numbers::specs::Choice::pick, crate::specs::Plans::strides_of))]
pub fn strides_of(viewed: bool, l: Layout, v: View) -> [u64; RANK]
    requires { layout_ok l ≡ true }
    ensures { (result ≡ strides_of viewed l v) × ((i : ℕ) → get_or result i 0 ≤ size_limit ^ 4) }
{
    if viewed {
        view_strides(l, v)
    } else {
        [0; RANK]
    }
}

// Each coordinate is weighed as it is found, since a permutation names each dimension once. The sizes of the view's dimensions are 1 to
// 4,096: at most five products of at most 4,096 to the fifth, 2 to the 60th, do not wrap.
pub fn view_index(
    v: View,
    permutation: &[u8; RANK],
    sizes: &[u32; RANK],
    strides: &[u64; RANK],
    index: u32,
) -> u64
    requires v_value { (view_ok v ≡ true) × ((i : ℕ) → i < v.rank → InSize (get_or sizes.now i 0)) × ((i : ℕ) → get_or strides.now i 0 ≤ size_limit ^ 4) }
    requires permutation_value { permutation.now ≡ v.permutation }
    ensures { result ≡ view_index v sizes.now strides.now index }
{
    let mut sum: u64 = 0;
    let mut left = index;
    for k in (0..usize::from(v.rank)).rev() {
        let i = usize::from(permutation[k]);
        let s = divide(left, sizes[i]);
        sum += u64::from(s.rest) * strides[i];
        left = s.quotient;
    }
    sum
}

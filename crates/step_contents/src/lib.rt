// What the content of a step's field says. A step is judged by its fields as they are read, so that it is not taken apart again, and is nothing
// where it is beyond Sizes.
#![tactic(auto)]

ghost use Rattle.std.specs.Prelude.{◌≡◌, ℕ, ◌+◌, ◌≤◌, length};
ghost use Rattle.step_contents.specs.Contents.{fill_at, window_at, load_at, store_at, reduce_at, transpose_at, multiply_at, vector_numbers, vector_at, step_at, step_length};
ghost use Rattle.step_contents.specs.Judged.{judged};

use numbers::{u16_at, u32_at};
use sheet::{Step, VectorStep, WholeStep, Window, codes, editions};
use sheet_ranges::steps;

#[tactic(auto, unfolding(crate::specs::Contents::fill_at, crate::specs::Judged::judged, numbers::specs::Choice::pick))]
fn fill_at(s: &[u8], edition: u8, p: usize) -> Step
    requires { p + 8 ≤ length s.now }
    ensures { (layouts views : ℕ) → result ≡ judged edition layouts views (fill_at s.now p) }
{
    let register = s[p];
    let rows = s[p + 1];
    let columns = s[p + 2];
    let kind = s[p + 3];
    let value = u32_at(s, p + 4);
    if !steps::fill_ok(edition, register, rows, columns, kind, value) {
        return Step::Nothing;
    }
    Step::Whole(WholeStep::Fill {
        register,
        rows,
        columns,
        kind,
        value,
    })
}

#[tactic(auto, unfolding(crate::specs::Contents::window_at))]
fn window_at(s: &[u8], p: usize) -> Window
    requires { p + 6 ≤ length s.now }
    ensures { result ≡ window_at s.now p }
{
    Window {
        layout: s[p],
        view: codes::viewing_of(s[p + 1]),
        base: u32_at(s, p + 2),
    }
}

#[tactic(auto, unfolding(crate::specs::Contents::load_at, crate::specs::Judged::judged, numbers::specs::Choice::pick))]
fn load_at(s: &[u8], edition: u8, p: usize, layouts: usize, views: usize) -> Step
    requires { p + 8 ≤ length s.now }
    ensures { result ≡ judged edition layouts views (load_at edition s.now p) }
{
    let register = s[p];
    let object = codes::object_of(editions::no_object(edition), s[p + 1]);
    let window = window_at(s, p + 2);
    if !steps::load_ok(edition, layouts, views, register, object, window) {
        return Step::Nothing;
    }
    Step::Load {
        register,
        object,
        window,
    }
}

#[tactic(auto, unfolding(crate::specs::Contents::store_at, crate::specs::Judged::judged, numbers::specs::Choice::pick))]
fn store_at(s: &[u8], p: usize, layouts: usize, views: usize) -> Step
    requires { p + 7 ≤ length s.now }
    ensures { (edition : ℕ) → result ≡ judged edition layouts views (store_at s.now p) }
{
    let register = s[p];
    let window = window_at(s, p + 1);
    if !steps::store_ok(layouts, views, register, window) {
        return Step::Nothing;
    }
    Step::Store { register, window }
}

// A reduce whose mode or combine is not in the table is no step.
#[tactic(auto, unfolding(crate::specs::Contents::reduce_at, crate::specs::Judged::judged, numbers::specs::Choice::pick))]
fn reduce_at(s: &[u8], edition: u8, p: usize) -> Step
    requires { p + 6 ≤ length s.now }
    ensures { (layouts views : ℕ) → result ≡ judged edition layouts views (reduce_at s.now p) }
{
    let mode = s[p + 4];
    let combine = s[p + 5];
    if !numbers::between(1, 4, usize::from(mode)) || 5 < combine {
        return Step::Nothing;
    }
    let result = s[p];
    let source = s[p + 1];
    let rows = s[p + 2];
    let columns = s[p + 3];
    if !steps::reduce_ok(edition, result, source, rows, columns) {
        return Step::Nothing;
    }
    Step::Whole(WholeStep::Reduce {
        result,
        source,
        rows,
        columns,
        mode: codes::reduce_mode(mode),
        combine: codes::combine_of(combine),
    })
}

#[tactic(auto, unfolding(crate::specs::Contents::transpose_at, crate::specs::Judged::judged, numbers::specs::Choice::pick))]
fn transpose_at(s: &[u8], p: usize) -> Step
    requires { p + 2 ≤ length s.now }
    ensures { (edition layouts views : ℕ) → result ≡ judged edition layouts views (transpose_at s.now p) }
{
    let result = s[p];
    let source = s[p + 1];
    if !steps::transpose_ok(result, source) {
        return Step::Nothing;
    }
    Step::Whole(WholeStep::Transpose { result, source })
}

#[tactic(auto, unfolding(crate::specs::Contents::multiply_at, crate::specs::Judged::judged, numbers::specs::Choice::pick))]
fn multiply_at(s: &[u8], p: usize) -> Step
    requires { p + 4 ≤ length s.now }
    ensures { (edition layouts views : ℕ) → result ≡ judged edition layouts views (multiply_at s.now p) }
{
    let result = s[p];
    let a = s[p + 1];
    let b = s[p + 2];
    let c = s[p + 3];
    if !steps::multiply_ok(result, a, b, c) {
        return Step::Nothing;
    }
    Step::Whole(WholeStep::MultiplyAdd { result, a, b, c })
}

#[tactic(auto, unfolding(crate::specs::Contents::vector_numbers))]
fn vector_numbers(s: &[u8], p: usize) -> VectorStep
    requires { p + 19 ≤ length s.now }
    ensures { result ≡ vector_numbers s.now p }
{
    VectorStep {
        result: s[p],
        kind: s[p + 1],
        input: s[p + 2],
        interpretation: s[p + 3],
        matrix: s[p + 4],
        rows: s[p + 5],
        columns: s[p + 6],
        layout: codes::memory_layout(s[p + 7]),
        stride: u16_at(s, p + 8),
        offset: u32_at(s, p + 10),
        biased: s[p + 14] == 1,
        bias: u32_at(s, p + 15),
    }
}

// A vector step whose memory layout is not in the table, or whose bias is neither 0 nor 1, is no step.
#[tactic(auto, unfolding(crate::specs::Contents::vector_at, crate::specs::Judged::judged, numbers::specs::Choice::pick))]
fn vector_at(s: &[u8], edition: u8, p: usize) -> Step
    requires { p + 19 ≤ length s.now }
    ensures { (layouts views : ℕ) → result ≡ judged edition layouts views (vector_at s.now p) }
{
    if 1 < s[p + 7] || 1 < s[p + 14] {
        return Step::Nothing;
    }
    let v = vector_numbers(s, p);
    if !steps::vector_ok(edition, v) {
        return Step::Nothing;
    }
    Step::Whole(WholeStep::Vector(v))
}

// The step whose content starts at p and has its tag's length, in a sheet of so many layouts and views.
#[tactic(auto, unfolding(crate::specs::Contents::step_at, crate::specs::Contents::step_length, sheet::specs::Editions::fill_length, numbers::specs::Choice::pick))]
pub fn step_at(s: &[u8], edition: u8, tag: u8, p: usize, layouts: usize, views: usize) -> Step
    requires { p + step_length edition tag ≤ length s.now }
    ensures { result ≡ judged edition layouts views (step_at edition s.now tag p) }
{
    match tag {
        codes::FILL_TAG => fill_at(s, edition, p),
        codes::LOAD_TAG => load_at(s, edition, p, layouts, views),
        codes::STORE_TAG => store_at(s, p, layouts, views),
        codes::REDUCE_TAG => reduce_at(s, edition, p),
        codes::TRANSPOSE_TAG => transpose_at(s, p),
        codes::MULTIPLY_TAG => multiply_at(s, p),
        _ => vector_at(s, edition, p),
    }
}

#[tactic(auto, unfolding(crate::specs::Contents::step_length, numbers::specs::Choice::pick))]
pub fn step_length(edition: u8, tag: u8) -> usize
    ensures { result ≡ step_length edition tag }
{
    match tag {
        codes::FILL_TAG => editions::fill_length(edition),
        codes::LOAD_TAG => 8,
        codes::STORE_TAG => 7,
        codes::REDUCE_TAG => 6,
        codes::TRANSPOSE_TAG => 2,
        codes::MULTIPLY_TAG => 4,
        _ => 19,
    }
}

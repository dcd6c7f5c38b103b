// Steps: how many bytes one takes, and writing it from a place of `out` on.
#![tactic(auto)]

ghost use Rattle.std.specs.Prelude.{◌≡◌, [], ◌∷◌, ◌++◌, ◌+◌, ◌≤◌, length};
ghost use Rattle.std.proofs.lemmas.List.Edits.{sets};
ghost use Rattle.numbers.specs.Little.{u32_bytes};
ghost use Rattle.sheet.specs.Codes.{reduce_code, combine_code, object_code};
ghost use Rattle.step_bytes.specs.Bytes.{whole_tag, step_tag, window_bytes, vector_operands, vector_places, vector_bytes, whole_bytes, step_bytes, step_field};

use fields::{HEAD, writing};
use sheet::{Combine, Object, ReduceMode, Step, VectorStep, WholeStep, Window, codes, editions};

fn whole_tag(s: WholeStep) -> u8
    ensures { result ≡ whole_tag s }
{
    match s {
        WholeStep::Fill { .. } => codes::FILL_TAG,
        WholeStep::Reduce { .. } => codes::REDUCE_TAG,
        WholeStep::Transpose { .. } => codes::TRANSPOSE_TAG,
        WholeStep::MultiplyAdd { .. } => codes::MULTIPLY_TAG,
        WholeStep::Vector(_) => codes::VECTOR_TAG,
    }
}

// An unused place has none of the table's tags.
fn step_tag(s: Step) -> u8
    ensures { result ≡ step_tag s }
{
    match s {
        Step::Nothing => 0,
        Step::Load { .. } => codes::LOAD_TAG,
        Step::Store { .. } => codes::STORE_TAG,
        Step::Whole(whole) => whole_tag(whole),
    }
}

// By the table of "The sheet".
#[tactic(auto, unfolding(sheet::specs::Editions::fill_length))]
fn whole_len(edition: u8, s: WholeStep) -> u16
    ensures { result ≡ length (whole_bytes edition s) }
{
    match s {
        WholeStep::Fill { .. } => editions::fill_length(edition) as u16,
        WholeStep::Reduce { .. } => 6,
        WholeStep::Transpose { .. } => 2,
        WholeStep::MultiplyAdd { .. } => 4,
        WholeStep::Vector(_) => 19,
    }
}

pub fn step_len(edition: u8, s: Step) -> u16
    ensures { result ≡ length (step_bytes edition s) }
{
    match s {
        Step::Nothing => 0,
        Step::Load { .. } => 8,
        Step::Store { .. } => 7,
        Step::Whole(whole) => whole_len(edition, whole),
    }
}

fn put_four(out: &mut [u8], at: usize, a: u8, b: u8, c: u8, d: u8)
    requires { at + 4 ≤ length out.old }
    ensures { out.new ≡ sets out.old at (a ∷ b ∷ c ∷ d ∷ []) }
{
    writing::put_pair(out, at, a, b);
    writing::put_pair(out, at + 2, c, d);
}

fn put_fill(out: &mut [u8], at: usize, register: u8, rows: u8, columns: u8, kind: u8, value: u32)
    requires { at + 8 ≤ length out.old }
    ensures { out.new ≡ sets out.old at ((register ∷ rows ∷ columns ∷ kind ∷ []) ++ u32_bytes value) }
{
    put_four(out, at, register, rows, columns, kind);
    numbers::put_u32(out, at + 4, value);
}

fn put_window(out: &mut [u8], at: usize, w: Window)
    requires { at + 6 ≤ length out.old }
    ensures { out.new ≡ sets out.old at (window_bytes w) }
{
    writing::put_pair(out, at, w.layout, codes::viewing_code(w.view));
    numbers::put_u32(out, at + 2, w.base);
}

fn put_load(out: &mut [u8], at: usize, register: u8, object: Object, window: Window)
    requires { at + 8 ≤ length out.old }
    ensures { out.new ≡ sets out.old at ((register ∷ object_code object ∷ []) ++ window_bytes window) }
{
    writing::put_pair(out, at, register, codes::object_code(object));
    put_window(out, at + 2, window);
}

fn put_store(out: &mut [u8], at: usize, register: u8, window: Window)
    requires { at + 7 ≤ length out.old }
    ensures { out.new ≡ sets out.old at ((register ∷ []) ++ window_bytes window) }
{
    writing::put_byte(out, at, register);
    put_window(out, at + 1, window);
}

fn put_reduce(
    out: &mut [u8],
    at: usize,
    res: u8,
    source: u8,
    rows: u8,
    columns: u8,
    mode: ReduceMode,
    combine: Combine,
)
    requires { at + 6 ≤ length out.old }
    ensures { out.new ≡ sets out.old at (res ∷ source ∷ rows ∷ columns ∷ reduce_code mode ∷ combine_code combine ∷ []) }
{
    put_four(out, at, res, source, rows, columns);
    writing::put_pair(
        out,
        at + 4,
        codes::reduce_code(mode),
        codes::combine_code(combine),
    );
}

// The registers and the matrix's shape.
fn put_vector_operands(out: &mut [u8], at: usize, v: VectorStep)
    requires { at + 8 ≤ length out.old }
    ensures { out.new ≡ sets out.old at (vector_operands v) }
{
    put_four(out, at, v.result, v.kind, v.input, v.interpretation);
    put_four(
        out,
        at + 4,
        v.matrix,
        v.rows,
        v.columns,
        codes::memory_layout_code(v.layout),
    );
}

// Where the matrix and the bias lie.
fn put_vector_places(out: &mut [u8], at: usize, v: VectorStep)
    requires { at + 11 ≤ length out.old }
    ensures { out.new ≡ sets out.old at (vector_places v) }
{
    numbers::put_u16(out, at, v.stride);
    numbers::put_u32(out, at + 2, v.offset);
    writing::put_byte(out, at + 6, codes::flag_code(v.biased));
    numbers::put_u32(out, at + 7, v.bias);
}

fn put_vector(out: &mut [u8], at: usize, v: VectorStep)
    requires { at + 19 ≤ length out.old }
    ensures { out.new ≡ sets out.old at (vector_bytes v) }
{
    put_vector_operands(out, at, v);
    put_vector_places(out, at + 8, v);
}

fn put_whole_content(out: &mut [u8], at: usize, edition: u8, s: WholeStep)
    requires { at + length (whole_bytes edition s) ≤ length out.old }
    ensures { out.new ≡ sets out.old at (whole_bytes edition s) }
{
    match s {
        WholeStep::Fill {
            register,
            rows,
            columns,
            kind,
            value,
        } => put_fill(out, at, register, rows, columns, kind, value),
        WholeStep::Reduce {
            result,
            source,
            rows,
            columns,
            mode,
            combine,
        } => put_reduce(out, at, result, source, rows, columns, mode, combine),
        WholeStep::Transpose { result, source } => writing::put_pair(out, at, result, source),
        WholeStep::MultiplyAdd { result, a, b, c } => put_four(out, at, result, a, b, c),
        WholeStep::Vector(v) => put_vector(out, at, v),
    }
}

fn put_step_content(out: &mut [u8], at: usize, edition: u8, s: Step)
    requires { at + length (step_bytes edition s) ≤ length out.old }
    ensures { out.new ≡ sets out.old at (step_bytes edition s) }
{
    match s {
        Step::Nothing => {}
        Step::Load {
            register,
            object,
            window,
        } => put_load(out, at, register, object, window),
        Step::Store { register, window } => put_store(out, at, register, window),
        Step::Whole(whole) => put_whole_content(out, at, edition, whole),
    }
}

// Returns the place after the field.
#[tactic(auto, using(fields::specs::Laws::Lengths::length_field, fields::specs::Laws::Puts::field_put))]
pub fn put_step(out: &mut [u8], at: usize, edition: u8, s: Step) -> usize
    requires { at + length (step_field edition s) ≤ length out.old }
    ensures { (result ≡ at + length (step_field edition s)) × (out.new ≡ sets out.old at (step_field edition s)) }
{
    let content = step_len(edition, s);
    writing::put_head(out, at, step_tag(s), content);
    put_step_content(out, at + HEAD, edition, s);
    at + writing::field_len(content)
}

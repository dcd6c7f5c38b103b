// Steps: what a step must keep to, in a sheet of an edition with so many layouts and views.
ghost use Rattle.std.specs.Prelude.{◌≡◌, ◌≤◌, ◌<◌};
ghost use Rattle.sheet_ranges.specs.Steps.{no_cell, fill_ok, object_ok, viewing_ok, window_ok, load_ok, store_ok, reduce_ok, transpose_ok, multiply_ok, bias_ok, vector_ok, whole_ok, step_ok, step_unused};

use sheet::{Cell, Object, Step, VectorStep, Viewing, WholeStep, Window, editions, sizes};

pub fn no_cell() -> Cell
    ensures { result ≡ no_cell }
{
    Cell {
        step: Step::Nothing,
    }
}

#[tactic(auto, unfolding(crate::specs::Steps::fill_ok, numbers::specs::Choice::both, numbers::specs::Choice::pick))]
pub fn fill_ok(edition: u8, register: u8, rows: u8, columns: u8, kind: u8, value: u32) -> bool
    ensures { result ≡ fill_ok edition register rows columns kind value }
{
    sizes::register_ok(register)
        && editions::side_ok(edition, rows)
        && editions::side_ok(edition, columns)
        && kinds::kind_ok(kind)
        && kinds::fits(kind, value)
}

// A register, or what no object means in the edition.
fn object_ok(edition: u8, object: Object) -> bool
    ensures { result ≡ object_ok edition object }
{
    match object {
        Object::Kept => !editions::object_is_zeros(edition),
        Object::Zeros => editions::object_is_zeros(edition),
        Object::Register(register) => sizes::register_ok(register),
    }
}

fn viewing_ok(views: usize, view: Viewing) -> bool
    ensures { result ≡ viewing_ok views view }
{
    match view {
        Viewing::Plain => true,
        Viewing::Through(v) => usize::from(v) < views,
    }
}

// Any base of 32 bits is within Sizes.
#[tactic(auto, unfolding(crate::specs::Steps::window_ok, numbers::specs::Choice::both, numbers::specs::Choice::pick))]
fn window_ok(layouts: usize, views: usize, window: Window) -> bool
    ensures { result ≡ window_ok layouts views window }
{
    usize::from(window.layout) < layouts && viewing_ok(views, window.view)
}

#[tactic(auto, unfolding(crate::specs::Steps::load_ok, numbers::specs::Choice::both, numbers::specs::Choice::pick))]
pub fn load_ok(
    edition: u8,
    layouts: usize,
    views: usize,
    register: u8,
    object: Object,
    window: Window,
) -> bool
    ensures { result ≡ load_ok edition layouts views register object window }
{
    sizes::register_ok(register) && object_ok(edition, object) && window_ok(layouts, views, window)
}

#[tactic(auto, unfolding(crate::specs::Steps::store_ok, numbers::specs::Choice::both, numbers::specs::Choice::pick))]
pub fn store_ok(layouts: usize, views: usize, register: u8, window: Window) -> bool
    ensures { result ≡ store_ok layouts views register window }
{
    sizes::register_ok(register) && window_ok(layouts, views, window)
}

#[tactic(auto, unfolding(crate::specs::Steps::reduce_ok, numbers::specs::Choice::both, numbers::specs::Choice::pick))]
pub fn reduce_ok(edition: u8, res: u8, source: u8, rows: u8, columns: u8) -> bool
    ensures { result ≡ reduce_ok edition res source rows columns }
{
    sizes::register_ok(res)
        && sizes::register_ok(source)
        && editions::side_ok(edition, rows)
        && editions::side_ok(edition, columns)
}

#[tactic(auto, unfolding(crate::specs::Steps::transpose_ok, numbers::specs::Choice::both, numbers::specs::Choice::pick))]
pub fn transpose_ok(res: u8, source: u8) -> bool
    ensures { result ≡ transpose_ok res source }
{
    sizes::register_ok(res) && sizes::register_ok(source)
}

#[tactic(auto, unfolding(crate::specs::Steps::multiply_ok, numbers::specs::Choice::both, numbers::specs::Choice::pick))]
pub fn multiply_ok(res: u8, a: u8, b: u8, c: u8) -> bool
    ensures { result ≡ multiply_ok res a b c }
{
    sizes::register_ok(res)
        && sizes::register_ok(a)
        && sizes::register_ok(b)
        && sizes::register_ok(c)
}

// Without a bias there is no bias offset.
#[tactic(auto, unfolding(crate::specs::Steps::bias_ok, numbers::specs::Choice::pick))]
fn bias_ok(v: VectorStep) -> bool
    ensures { result ≡ bias_ok v }
{
    v.biased || v.bias == 0
}

#[tactic(auto, unfolding(crate::specs::Steps::vector_ok, numbers::specs::Choice::both, numbers::specs::Choice::pick))]
pub fn vector_ok(edition: u8, v: VectorStep) -> bool
    ensures { result ≡ vector_ok edition v }
{
    editions::has_vectors(edition)
        && sizes::register_ok(v.result)
        && kinds::word_kind(v.kind)
        && sizes::register_ok(v.input)
        && kinds::interpretations::interpretation_ok(v.interpretation)
        && kinds::kind_ok(v.matrix)
        && editions::side_ok(edition, v.rows)
        && editions::side_ok(edition, v.columns)
        && bias_ok(v)
}

fn whole_ok(edition: u8, step: WholeStep) -> bool
    ensures { result ≡ whole_ok edition step }
{
    match step {
        WholeStep::Fill {
            register,
            rows,
            columns,
            kind,
            value,
        } => fill_ok(edition, register, rows, columns, kind, value),
        WholeStep::Reduce {
            result,
            source,
            rows,
            columns,
            ..
        } => reduce_ok(edition, result, source, rows, columns),
        WholeStep::Transpose { result, source } => transpose_ok(result, source),
        WholeStep::MultiplyAdd { result, a, b, c } => multiply_ok(result, a, b, c),
        WholeStep::Vector(v) => vector_ok(edition, v),
    }
}

pub fn step_ok(edition: u8, layouts: usize, views: usize, step: Step) -> bool
    ensures { result ≡ step_ok edition layouts views step }
{
    match step {
        Step::Nothing => false,
        Step::Load {
            register,
            object,
            window,
        } => load_ok(edition, layouts, views, register, object, window),
        Step::Store { register, window } => store_ok(layouts, views, register, window),
        Step::Whole(whole) => whole_ok(edition, whole),
    }
}

pub fn step_unused(step: Step) -> bool
    ensures { result ≡ step_unused step }
{
    matches!(step, Step::Nothing)
}

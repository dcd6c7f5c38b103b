// Sheets: the empty one, and what a whole sheet must keep to.
ghost use Rattle.std.specs.Prelude.{◌≡◌, ◌≤◌, ◌<◌};
ghost use Rattle.numbers.specs.All.{all};
ghost use Rattle.sheet.specs.Sizes.{layout_places, view_places, step_places};
ghost use Rattle.sheet_ranges.specs.Sheets.{no_tensors, empty_sheet, layout_at_ok, view_at_ok, step_at_ok, tensors_ok, steps_ok, writable};

use super::steps;
use sheet::sizes::{LAYOUTS, STEPS, VIEWS};
use sheet::{Cell, Layout, Sheet, Tensors, View, editions};
use tensor_ranges::{layouts, views};

#[tactic(auto, unfolding(crate::specs::Sheets::no_tensors))]
pub fn no_tensors() -> Tensors
    ensures { result ≡ no_tensors }
{
    Tensors {
        layouts: 0,
        layout: [layouts::no_layout(); LAYOUTS],
        views: 0,
        view: [views::no_view(); VIEWS],
    }
}

#[tactic(auto, unfolding(crate::specs::Sheets::empty_sheet))]
pub fn empty_sheet() -> Sheet
    ensures { result ≡ empty_sheet }
{
    Sheet {
        edition: 0,
        tensors: no_tensors(),
        steps: 0,
        step: [steps::no_cell(); STEPS],
    }
}

#[tactic(auto, unfolding(crate::specs::Sheets::layout_at_ok, numbers::specs::Choice::pick))]
fn layout_at_ok(count: usize, ls: [Layout; LAYOUTS], k: usize) -> bool
    requires { k < layout_places }
    ensures { result ≡ layout_at_ok count ls k }
{
    if k < count {
        layouts::layout_ok(ls[k])
    } else {
        layouts::layout_unused(ls[k])
    }
}

fn layouts_ok(count: usize, ls: [Layout; LAYOUTS]) -> bool
    ensures { result ≡ all layout_places (layout_at_ok count ls) }
{
    (0..LAYOUTS).all(|k| layout_at_ok(count, ls, k))
}

#[tactic(auto, unfolding(crate::specs::Sheets::view_at_ok, numbers::specs::Choice::pick))]
fn view_at_ok(count: usize, vs: [View; VIEWS], k: usize) -> bool
    requires { k < view_places }
    ensures { result ≡ view_at_ok count vs k }
{
    if k < count {
        views::view_ok(vs[k])
    } else {
        views::view_unused(vs[k])
    }
}

fn views_ok(count: usize, vs: [View; VIEWS]) -> bool
    ensures { result ≡ all view_places (view_at_ok count vs) }
{
    (0..VIEWS).all(|k| view_at_ok(count, vs, k))
}

#[tactic(auto, unfolding(crate::specs::Sheets::tensors_ok, numbers::specs::Choice::both, numbers::specs::Choice::pick))]
fn tensors_ok(t: Tensors) -> bool
    ensures { result ≡ tensors_ok t }
{
    t.layouts <= LAYOUTS
        && t.views <= VIEWS
        && layouts_ok(t.layouts, t.layout)
        && views_ok(t.views, t.view)
}

#[tactic(auto, unfolding(crate::specs::Sheets::step_at_ok, numbers::specs::Choice::pick))]
fn step_at_ok(
    edition: u8,
    layouts: usize,
    views: usize,
    count: usize,
    cs: [Cell; STEPS],
    k: usize,
) -> bool
    requires { k < step_places }
    ensures { result ≡ step_at_ok edition layouts views count cs k }
{
    if k < count {
        steps::step_ok(edition, layouts, views, cs[k].step)
    } else {
        steps::step_unused(cs[k].step)
    }
}

fn cells_ok(edition: u8, layouts: usize, views: usize, count: usize, cs: [Cell; STEPS]) -> bool
    ensures { result ≡ all step_places (step_at_ok edition layouts views count cs) }
{
    (0..STEPS).all(|k| step_at_ok(edition, layouts, views, count, cs, k))
}

#[tactic(auto, unfolding(crate::specs::Sheets::steps_ok, numbers::specs::Choice::both, numbers::specs::Choice::pick))]
fn steps_ok(edition: u8, layouts: usize, views: usize, count: usize, cs: [Cell; STEPS]) -> bool
    ensures { result ≡ steps_ok edition layouts views count cs }
{
    count <= editions::limits(edition).steps && cells_ok(edition, layouts, views, count, cs)
}

// A model that a sheet reads as: each number is within Sizes, and each unused place is zero.
#[tactic(auto, unfolding(crate::specs::Sheets::writable, numbers::specs::Choice::both, numbers::specs::Choice::pick))]
pub fn writable(sheet: Sheet) -> bool
    ensures { result ≡ writable sheet }
{
    let tensors = sheet.tensors;
    editions::edition_ok(sheet.edition)
        && tensors_ok(tensors)
        && steps_ok(
            sheet.edition,
            tensors.layouts,
            tensors.views,
            sheet.steps,
            sheet.step,
        )
}

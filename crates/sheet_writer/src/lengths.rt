// How many bytes the parts of a sheet take.
ghost use Rattle.std.specs.Prelude.{◌≡◌, true, ◌*◌, ◌≤◌, length};
ghost use Rattle.sheet.specs.Sizes.{layout_places, view_places, step_places};
ghost use Rattle.sheet_ranges.specs.Sheets.{writable};
ghost use Rattle.sheet_writer.specs.Bytes.{layouts_bytes, views_bytes, steps_bytes, sheet_bytes};

use fields::writing;
use sheet::sizes::{LAYOUTS, STEPS, VIEWS};
use sheet::{Cell, Layout, Sheet, View};
use sheet_bytes::edition::EDITION_LEN;
use sheet_bytes::{layouts, views};

fn layouts_len(count: usize, ls: [Layout; LAYOUTS]) -> usize
    requires { count ≤ layout_places }
    ensures { (result ≡ length (layouts_bytes count ls)) × (result ≤ count * 65538) }
{
    ls[..count]
        .iter()
        .map(|l| writing::field_len(layouts::layout_len(*l)))
        .sum()
}

fn views_len(count: usize, vs: [View; VIEWS]) -> usize
    requires { count ≤ view_places }
    ensures { (result ≡ length (views_bytes count vs)) × (result ≤ count * 65538) }
{
    vs[..count]
        .iter()
        .map(|v| writing::field_len(views::view_len(*v)))
        .sum()
}

fn steps_len(edition: u8, count: usize, cs: [Cell; STEPS]) -> usize
    requires { count ≤ step_places }
    ensures { (result ≡ length (steps_bytes edition count cs)) × (result ≤ count * 65538) }
{
    cs[..count]
        .iter()
        .map(|c| writing::field_len(step_bytes::step_len(edition, c.step)))
        .sum()
}

#[tactic(auto, using(crate::proofs::Laws::Places::places))]
pub fn sheet_len(model: Sheet) -> usize
    requires { writable model ≡ true }
    ensures { result ≡ length (sheet_bytes model) }
{
    let t = model.tensors;
    EDITION_LEN
        + layouts_len(t.layouts, t.layout)
        + views_len(t.views, t.view)
        + steps_len(model.edition, model.steps, model.step)
}

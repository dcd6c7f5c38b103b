// Writes a sheet: the bytes that read as it.
#![tactic(auto)]

ghost use Rattle.std.specs.Prelude.{◌≡◌, true, ◌+◌, ◌≤◌, length};
ghost use Rattle.std.proofs.lemmas.List.Edits.{sets};
ghost use Rattle.sheet.specs.Sizes.{layout_places, view_places, step_places};
ghost use Rattle.sheet_ranges.specs.Sheets.{writable};
ghost use Rattle.sheet_ranges.specs.Laws.Within.{LayoutsHeld, ViewsHeld};
ghost use Rattle.sheet_writer.specs.Bytes.{layouts_bytes, views_bytes, steps_bytes, sheet_bytes};
ghost use Rattle.sheet_writer.specs.Writing.{write_answer, written, written_room};

use refusals::Refusal;
use sheet::sizes::{LAYOUTS, STEPS, VIEWS};
use sheet::{Cell, Layout, Sheet, View};
use sheet_bytes::{edition, layouts, views};
use sheet_ranges::sheets;

mod lengths;

// What writing gives: a refusal, or the count of bytes written.
#[derive(Clone, Copy)]
pub struct WriteAnswer {
    pub refusal: Refusal,
    pub bytes: usize,
}

fn answer(number: u8, bytes: usize) -> WriteAnswer
    ensures { result ≡ write_answer number bytes }
{
    WriteAnswer {
        refusal: refusals::refusal_at(number, 0, 0),
        bytes,
    }
}

// Returns the place after the last field, as do the next two.
fn put_layouts(out: &mut [u8], at: usize, count: usize, ls: [Layout; LAYOUTS]) -> usize
    requires { (count ≤ layout_places) × LayoutsHeld count ls × (at + length (layouts_bytes count ls) ≤ length out.old) }
    ensures { (result ≡ at + length (layouts_bytes count ls)) × (out.new ≡ sets out.old at (layouts_bytes count ls)) }
{
    let mut p = at;
    for l in &ls[..count] {
        p = layouts::put_layout(out, p, *l);
    }
    p
}

fn put_views(out: &mut [u8], at: usize, count: usize, vs: [View; VIEWS]) -> usize
    requires { (count ≤ view_places) × ViewsHeld count vs × (at + length (views_bytes count vs) ≤ length out.old) }
    ensures { (result ≡ at + length (views_bytes count vs)) × (out.new ≡ sets out.old at (views_bytes count vs)) }
{
    let mut p = at;
    for v in &vs[..count] {
        p = views::put_view(out, p, *v);
    }
    p
}

fn put_steps(out: &mut [u8], at: usize, edition: u8, count: usize, cs: [Cell; STEPS]) -> usize
    requires { (count ≤ step_places) × (at + length (steps_bytes edition count cs) ≤ length out.old) }
    ensures { (result ≡ at + length (steps_bytes edition count cs)) × (out.new ≡ sets out.old at (steps_bytes edition count cs)) }
{
    let mut p = at;
    for c in &cs[..count] {
        p = step_bytes::put_step(out, p, edition, c.step);
    }
    p
}

// Returns how many bytes it wrote.
fn put_sheet(out: &mut [u8], model: Sheet) -> usize
    requires { (writable model ≡ true) × (length (sheet_bytes model) ≤ length out.old) }
    ensures { (result ≡ length (sheet_bytes model)) × (out.new ≡ sets out.old 0 (sheet_bytes model)) }
{
    let t = model.tensors;
    edition::put_edition(out, model.edition);
    let views_at = put_layouts(out, edition::EDITION_LEN, t.layouts, t.layout);
    let steps_at = put_views(out, views_at, t.views, t.view);
    put_steps(out, steps_at, model.edition, model.steps, model.step)
}

#[tactic(auto, unfolding(crate::specs::Writing::written, crate::specs::Writing::written_room, numbers::specs::Choice::pick))]
pub fn write_sheet(model: Sheet, out: &mut [u8]) -> WriteAnswer
    ensures { (result ≡ written model (length out.old)) × (out.new ≡ written_room model out.old) }
{
    if !sheets::writable(model) {
        return answer(refusals::BEYOND_SIZES, 0);
    }
    if out.len() < lengths::sheet_len(model) {
        return answer(refusals::ROOM_TOO_SHORT, 0);
    }
    answer(0, put_sheet(out, model))
}

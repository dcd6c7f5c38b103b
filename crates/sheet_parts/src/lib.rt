// The parts of a sheet, taken from its bytes where reading found them; and the whole sheet, put together of them.
#![tactic(auto)]

ghost use Rattle.std.specs.Prelude.{◌≡◌, ◌<◌, length};
ghost use Rattle.tensor_ranges.specs.Layouts.{the_layout};
ghost use Rattle.tensor_ranges.specs.Views.{the_view};
ghost use Rattle.sheet_ranges.specs.Steps.{the_step};
ghost use Rattle.sheet_reader.specs.Reading.{read_sheet};
ghost use Rattle.sheet_reader.specs.Parts.{part_places, sheet_of, Outlined};
ghost use Rattle.sheet_reader.specs.declared.Given.{Given};
ghost use Rattle.sheet_parts.specs.Cells.{no_cells};

use fields::{Cursor, Field};
use sheet::sizes::{LAYOUTS, STEPS, VIEWS};
use sheet::{Cell, Layout, Sheet, Step, Tensors, View};
use sheet_ranges::{sheets, steps};
use sheet_reader::{FIRST_STEP, FIRST_VIEW, Given, PARTS, ReadAnswer};
use tensor_ranges::{layouts, views};

// Room for where the parts of a sheet stand.
pub fn no_parts() -> [usize; PARTS]
    ensures { length result ≡ part_places }
{
    [0usize; PARTS]
}

// Layout number k.
pub fn layout_in(s: &[u8], parts: &[usize; PARTS], k: usize) -> Layout
    requires { ((g : Given) × Outlined s.now parts.now g) × (k < (sheet_of s.now).tensors.layouts) }
    ensures { result ≡ the_layout (sheet_of s.now).tensors.layout k }
{
    let c = Cursor { at: parts[k] };
    let Field::Whole {
        tag: _,
        start,
        len,
        next: _,
    } = c.field(s)
    else {
        return layouts::no_layout();
    };
    contents::layout_at(s, start, len)
}

// View number k.
pub fn view_in(s: &[u8], parts: &[usize; PARTS], k: usize) -> View
    requires { ((g : Given) × Outlined s.now parts.now g) × (k < (sheet_of s.now).tensors.views) }
    ensures { result ≡ the_view (sheet_of s.now).tensors.view k }
{
    let c = Cursor {
        at: parts[FIRST_VIEW + k],
    };
    let Field::Whole {
        tag: _,
        start,
        len,
        next: _,
    } = c.field(s)
    else {
        return views::no_view();
    };
    contents::view_at(s, start, len)
}

// Step number k.
pub fn step_in(s: &[u8], parts: &[usize; PARTS], given: Given, k: usize) -> Step
    requires { Outlined s.now parts.now given × (k < given.steps) }
    ensures { result ≡ the_step (sheet_of s.now).step k }
{
    let c = Cursor {
        at: parts[FIRST_STEP + k],
    };
    let Field::Whole {
        tag,
        start,
        len: _,
        next: _,
    } = c.field(s)
    else {
        return Step::Nothing;
    };
    step_contents::step_at(s, given.edition, tag, start, given.layouts, given.views)
}

fn all_layouts(s: &[u8], parts: &[usize; PARTS], count: usize) -> [Layout; LAYOUTS]
    requires { ((g : Given) × Outlined s.now parts.now g) × (count ≡ (sheet_of s.now).tensors.layouts) }
    ensures { result ≡ (sheet_of s.now).tensors.layout }
{
    let none = layouts::no_layout();
    let mut all = [none; LAYOUTS];
    let mut k = 0;
    while k < count {
        all[k] = layout_in(s, parts, k);
        k += 1;
    }
    all
}

fn all_views(s: &[u8], parts: &[usize; PARTS], count: usize) -> [View; VIEWS]
    requires { ((g : Given) × Outlined s.now parts.now g) × (count ≡ (sheet_of s.now).tensors.views) }
    ensures { result ≡ (sheet_of s.now).tensors.view }
{
    let none = views::no_view();
    let mut all = [none; VIEWS];
    let mut k = 0;
    while k < count {
        all[k] = view_in(s, parts, k);
        k += 1;
    }
    all
}

fn no_cells() -> [Cell; STEPS]
    ensures { result ≡ no_cells }
{
    let none = steps::no_cell();
    [none; STEPS]
}

fn all_steps(s: &[u8], parts: &[usize; PARTS], given: Given) -> [Cell; STEPS]
    requires { Outlined s.now parts.now given }
    ensures { result ≡ (sheet_of s.now).step }
{
    let mut all = no_cells();
    let mut k = 0;
    while k < given.steps {
        let step = step_in(s, parts, given, k);
        all[k] = Cell { step };
        k += 1;
    }
    all
}

// The sheet that the bytes are, or the number and the place of the first refusal with an empty sheet.
pub fn read_sheet(s: &[u8]) -> ReadAnswer
    ensures { result ≡ read_sheet s.now }
{
    let mut parts = no_parts();
    let read = sheet_reader::outline_sheet(s, &mut parts);
    let refusal = read.refusal;
    if 0 < refusal.number {
        return ReadAnswer {
            refusal,
            sheet: sheets::empty_sheet(),
        };
    }
    let given = read.given;
    let layout = all_layouts(s, &parts, given.layouts);
    let view = all_views(s, &parts, given.views);
    let step = all_steps(s, &parts, given);
    ReadAnswer {
        refusal,
        sheet: Sheet {
            edition: given.edition,
            tensors: Tensors {
                layouts: given.layouts,
                layout,
                views: given.views,
                view,
            },
            steps: given.steps,
            step,
        },
    }
}

// The turns of a pass over a sheet's steps: each step as it stands in the sheet's bytes, with the access of its elements, found here for every pass.
ghost use Rattle.std.specs.Prelude.{◌≡◌, true, ℕ, ◌<◌};
ghost use Rattle.sheet_ranges.specs.Steps.{viewing_ok, window_ok, step_ok};
ghost use Rattle.sheet_reader.specs.Parts.{sheet_of, Outlined};
ghost use Rattle.sheet_reader.specs.declared.Given.{Given};
ghost use Rattle.checking.specs.Steps.{is_viewed, view_named, access_of, object_register};
ghost use Rattle.checking.specs.Turns.{no_access, step_access, Met};

use addressing::Access;
use registers::MatrixType;
use sheet::sizes::{RANK, REGISTERS};
use sheet::{ClampMode, Clip, Layout, Object, Step, View, Viewing, Window};
use sheet_reader::{Given, PARTS};
use tensor_ranges::{layouts, views};

// A step, and the access of its elements: of none, where it is no load and no store.
#[derive(Clone, Copy)]
pub struct Turn {
    pub step: Step,
    pub access: Access,
}

fn is_viewed(view: Viewing) -> bool
    ensures { result ≡ is_viewed view }
{
    match view {
        Viewing::Plain => false,
        Viewing::Through(_) => true,
    }
}

// The view that a window goes through, or the unused one.
fn view_named(s: &[u8], parts: &[usize; PARTS], view: Viewing) -> View
    requires { ((g : Given) × Outlined s.now parts.now g) × (viewing_ok (sheet_of s.now).tensors.views view ≡ true) }
    ensures { result ≡ view_named (sheet_of s.now).tensors view }
{
    match view {
        Viewing::Plain => views::no_view(),
        Viewing::Through(v) => sheet_parts::view_in(s, parts, v as usize),
    }
}

// A load or a store of a matrix of a type.
fn access_of(
    s: &[u8],
    parts: &[usize; PARTS],
    load: bool,
    window: Window,
    t: MatrixType,
    memory: usize,
) -> Access
    requires { ((g : Given) × Outlined s.now parts.now g) × (window_ok (sheet_of s.now).tensors.layouts (sheet_of s.now).tensors.views window ≡ true) }
    ensures { result ≡ access_of (sheet_of s.now).tensors load window t memory }
{
    let through = window.view;
    let layout = sheet_parts::layout_in(s, parts, window.layout as usize);
    let view = view_named(s, parts, through);
    Access {
        load,
        layout,
        viewed: is_viewed(through),
        view,
        base: window.base,
        size: kinds::bytes(t.kind),
        memory,
        rows: t.rows as u32,
        columns: t.columns as u32,
    }
}

// Written out, so that it is put in its place and not copied there.
fn no_access() -> Access
    ensures { result ≡ no_access }
{
    let d = layouts::no_dimension();
    let v = views::no_view_dimension();
    Access {
        load: false,
        layout: Layout {
            rank: 0,
            mode: ClampMode::Undefined,
            clamp: 0,
            dimensions: [d; RANK],
        },
        viewed: false,
        view: View {
            rank: 0,
            sized: false,
            permutation: [0u8; RANK],
            dimensions: [v; RANK],
            rows: Clip { offset: 0, span: 0 },
            columns: Clip { offset: 0, span: 0 },
        },
        base: 0,
        size: 0,
        memory: 0,
        rows: 0,
        columns: 0,
    }
}

// The register that a load's object is in, or whose type it has.
pub fn object_register(register: u8, object: Object) -> u8
    ensures { result ≡ object_register register object }
{
    match object {
        Object::Kept => register,
        Object::Zeros => register,
        Object::Register(r) => r,
    }
}

// The access of a step's elements.
pub fn step_access(
    s: &[u8],
    parts: &[usize; PARTS],
    types: [MatrixType; REGISTERS],
    memory: usize,
    step: Step,
) -> Access
    requires { ((g : Given) × Outlined s.now parts.now g) × ((edition : ℕ) × (step_ok edition (sheet_of s.now).tensors.layouts (sheet_of s.now).tensors.views step ≡ true)) }
    ensures { result ≡ step_access (sheet_of s.now).tensors types memory step }
{
    match step {
        Step::Nothing => no_access(),
        Step::Load {
            register,
            object,
            window,
        } => {
            let t = registers::the_type(types, object_register(register, object));
            access_of(s, parts, true, window, t, memory)
        }
        Step::Store { register, window } => {
            let t = registers::the_type(types, register);
            access_of(s, parts, false, window, t, memory)
        }
        Step::Whole(_) => no_access(),
    }
}

// Step number k, at the types that the steps before left.
pub fn turn_at(
    s: &[u8],
    parts: &[usize; PARTS],
    given: Given,
    types: [MatrixType; REGISTERS],
    memory: usize,
    k: usize,
) -> Turn
    requires { Outlined s.now parts.now given × (k < given.steps) }
    ensures { Met s.now types memory k result }
{
    let step = sheet_parts::step_in(s, parts, given, k);
    let access = step_access(s, parts, types, memory, step);
    Turn { step, access }
}

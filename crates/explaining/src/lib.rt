// Explains one element of a sheet's load or store (document 02, T-06): what becomes of it, and the first dimension in which it is not inside.
#![tactic(auto)]

ghost use Rattle.std.specs.Prelude.{◌≡◌, ◌≤◌, ◌<◌};
ghost use Rattle.sheet.specs.Sizes.{memory_limit};
ghost use Rattle.sheet_reader.specs.Parts.{sheet_of, Outlined};
ghost use Rattle.addressing.specs.Rules.{elements_of};
ghost use Rattle.addressing.specs.Valid.{Planned};
ghost use Rattle.accesses.specs.Refusals.{access_refusal};
ghost use Rattle.checking.specs.Checking.{checked};
ghost use Rattle.accepted.specs.Accepted.{ClearAccess};
ghost use Rattle.accepted.specs.Elements.{of_access};
ghost use Rattle.accepted.specs.Passes.{types_at};
ghost use Rattle.accepted.specs.Laws.Rests.{Rest};
ghost use Rattle.explaining.specs.Elements.{outside_of, explained, sheet_explained};
ghost use Rattle.explaining.specs.Explaining.{explain_answer, nothing_explained, asked, explained_sheet};

use addressing::{Access, Indexed, Plan};
use checking::{checks, turns};
use outcomes::{Explained, Outcome, Outside};
use refusals::{BEYOND_SIZES, Refusal};
use registers::MatrixType;
use sheet::sizes::{PLACES, RANK, REGISTERS};
use sheet_reader::{Given, PARTS};

// An element of a step, or none.
#[derive(Clone, Copy)]
pub enum Asked {
    Nothing,
    Element(Explained),
}

// A refusal with nothing explained beside it, or what is asked for.
#[derive(Clone, Copy)]
pub struct ExplainAnswer {
    pub refusal: Refusal,
    pub explained: Explained,
}

// Element number k, which is not refused, so that its index is below 2 to the 32nd. The arrays are the plan's and its view's, as for `locate`.
#[tactic(auto, using(crate::specs::Laws::Asking::index_small, spans::specs::Theorems::divided_coordinates), unfolding(crate::specs::Elements::outside_of))]
pub fn outside_of(
    p: Plan,
    permutation: &[u8; RANK],
    sizes: &[u32; RANK],
    strides: &[u64; RANK],
    k: u32,
) -> Outside
    requires planned { Planned p × (k < elements_of p.access) × ((access_refusal p.access).number ≡ 0) }
    requires permutation_value { (permutation.now ≡ p.access.view.permutation) × (sizes.now ≡ p.sizes) × (strides.now ≡ p.strides) }
    ensures { result ≡ outside_of p.access k }
{
    match addressing::index_of(p, permutation, sizes, strides, k) {
        Indexed::Skipped => Outside::Nowhere,
        Indexed::Index(i) => {
            let l = p.access.layout;
            let d = spans::span_coordinates(l, i as u32);
            clamps::first_outside(p.access.load, l, d.coordinates)
        }
    }
}

// The outcome comes from the survey that the jobs go by.
#[tactic(auto, using(addressing::specs::Laws::Plans::plan_count, crate::specs::Laws::Asking::access_past))]
fn explain_plan(p: Plan, element: usize) -> Asked
    requires { Planned p × ((access_refusal p.access).number ≡ 0) }
    ensures { result ≡ asked (of_access explained p.access) element }
{
    if p.count <= element {
        return Asked::Nothing;
    }
    let mut entries = [0u32; PLACES];
    accesses::survey(&mut entries, p);
    // The arrays are not lent from the plan, which would be copied for it and take more stack.
    let permutation = p.access.view.permutation;
    let sizes = p.sizes;
    let strides = p.strides;
    Asked::Element(Explained {
        outcome: accesses::outcome_of(entries[element], p.fill),
        outside: outside_of(p, &permutation, &sizes, &strides, element as u32),
    })
}

// An access without rows is that of no element.
#[tactic(auto, using(crate::specs::Laws::Asking::access_past, addressing::specs::Laws::Plans::planned_access, accesses::proofs::Laws::Accepted::accepted_valid))]
fn explain_access(access: Access, element: usize) -> Asked
    requires { 0 < access.rows → ClearAccess access }
    ensures { result ≡ asked (of_access explained access) element }
{
    if access.rows < 1 {
        return Asked::Nothing;
    }
    explain_plan(addressing::plan_of(access), element)
}

// The types that the steps before number n leave.
fn types_at(
    s: &[u8],
    parts: &[usize; PARTS],
    given: Given,
    memory: usize,
    n: usize,
) -> [MatrixType; REGISTERS]
    requires { Outlined s.now parts.now given × (memory ≤ memory_limit) × ((checked (sheet_of s.now) memory).refusal.number ≡ 0) × (n < given.steps) }
    ensures { (result ≡ types_at (sheet_of s.now) memory n) × Rest (sheet_of s.now) memory n result }
{
    let mut types = registers::empty_types();
    for k in 0..n {
        let step = sheet_parts::step_in(s, parts, given, k);
        let after = checks::step_types(types, step);
        types = after;
    }
    types
}

#[tactic(auto, using(crate::specs::Laws::Asking::sheet_past, checking::specs::Laws::Met::all_steps))]
fn explain_sheet(
    s: &[u8],
    parts: &[usize; PARTS],
    given: Given,
    memory: usize,
    step: usize,
    element: usize,
) -> Asked
    requires { Outlined s.now parts.now given × (memory ≤ memory_limit) × ((checked (sheet_of s.now) memory).refusal.number ≡ 0) }
    ensures { result ≡ asked (sheet_explained (sheet_of s.now) memory step) element }
{
    if given.steps <= step {
        return Asked::Nothing;
    }
    let types = types_at(s, parts, given, memory, step);
    let turn = turns::turn_at(s, parts, given, types, memory, step);
    explain_access(turn.access, element)
}

fn refuse(refusal: Refusal) -> ExplainAnswer
    ensures { result ≡ explain_answer refusal nothing_explained }
{
    ExplainAnswer {
        refusal,
        explained: Explained {
            outcome: Outcome::Skipped,
            outside: Outside::Nowhere,
        },
    }
}

// Explains an element of a step for a memory of a length, without a memory.
#[tactic(auto, using(crate::specs::Theorems::explained_accepted, crate::specs::Theorems::explained_refused))]
pub fn explain(sheet: &[u8], memory_len: usize, step: usize, element: usize) -> ExplainAnswer
    ensures { result ≡ explained_sheet sheet.now memory_len «step» «element» }
{
    let mut parts = sheet_parts::no_parts();
    let judged = checking::judge(sheet, &mut parts, memory_len);
    let refused = judged.answer.refusal;
    if 0 < refused.number {
        return refuse(refused);
    }
    match explain_sheet(sheet, &parts, judged.given, memory_len, step, element) {
        Asked::Nothing => refuse(refusals::refusal_at(BEYOND_SIZES, step, element)),
        Asked::Element(x) => ExplainAnswer {
            refusal: refusals::not_refused(),
            explained: x,
        },
    }
}

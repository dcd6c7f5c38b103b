// The check of a sheet's steps, over the registers' types and the memory's length: refusals 7 to 15.
ghost use Rattle.std.specs.Prelude.{◌≡◌, true, ℕ, ◌≤◌, ◌<◌, length};
ghost use Rattle.sheet.specs.Sizes.{matrix_places, memory_limit};
ghost use Rattle.sheet.specs.declared.Tensors.{Tensors};
ghost use Rattle.sheet_ranges.specs.Steps.{step_ok};
ghost use Rattle.sheet_reader.specs.Parts.{sheet_of, Outlined};
ghost use Rattle.addressing.specs.Valid.{SizedAccess};
ghost use Rattle.whole_steps.specs.Within.{WholeOk};
ghost use Rattle.accesses.specs.Entries.{Told};
ghost use Rattle.checking.specs.Steps.{step_check, access_check, whole_check, step_types, checked_step};
ghost use Rattle.checking.specs.Turns.{step_access, Turned};
ghost use Rattle.checking.specs.Checking.{check_refused, checked};

use super::{CheckAnswer, StepCheck, turns};
use addressing::Access;
use refusals::{EMPTY_REGISTER, Refusal};
use registers::MatrixType;
use sheet::sizes::{PLACES, REGISTERS};
use sheet::{Step, WholeStep};
use sheet_reader::{Given, PARTS};

pub fn check_refused(refusal: Refusal) -> CheckAnswer
    ensures { result ≡ check_refused refusal }
{
    CheckAnswer { refusal, count: 0 }
}

// Neither elements with a byte nor an element that is refused.
fn plain_check(number: u8, types: [MatrixType; REGISTERS]) -> StepCheck
    ensures { result ≡ step_check number types 0 }
{
    StepCheck {
        stop: refusals::stop_at(number, 0),
        types,
        placed: 0,
    }
}

// A load or a store, with the types before and after it: its register is empty where the access has no rows.
fn check_moves(
    entries: &mut [u32; PLACES],
    before: [MatrixType; REGISTERS],
    after: [MatrixType; REGISTERS],
    access: Access,
) -> StepCheck
    requires { (0 < access.rows → SizedAccess access) × (length entries.old ≡ matrix_places) }
    ensures entries_len { length entries.new ≡ matrix_places }
    ensures value { (t : MatrixType) → access.rows ≡ t.rows → result ≡ access_check before after t access }
    ensures told { result.stop.number ≡ 0 → Told access entries.new }
{
    if access.rows < 1 {
        return plain_check(EMPTY_REGISTER, before);
    }
    let c = accesses::check_access(entries, access);
    let stop = c.stop;
    StepCheck {
        stop,
        types: after,
        placed: c.placed,
    }
}

fn check_whole(
    edition: u8,
    types: [MatrixType; REGISTERS],
    memory: usize,
    step: WholeStep,
) -> StepCheck
    requires { WholeOk step }
    ensures { result ≡ whole_check edition types memory step }
{
    let stop = whole_steps::stops::whole_refusal(edition, types, memory, step);
    let after = whole_steps::types::whole_types(types, step);
    StepCheck {
        stop,
        types: after,
        placed: 0,
    }
}

// The entries are lent room: where a load or a store is accepted, they stand for the outcomes of its elements.
pub fn check_step(
    entries: &mut [u32; PLACES],
    edition: u8,
    types: [MatrixType; REGISTERS],
    memory: usize,
    step: Step,
    access: Access,
) -> StepCheck
    requires { ((tensors : Tensors) × Turned edition tensors types memory step access) × (length entries.old ≡ matrix_places) }
    ensures entries_len { length entries.new ≡ matrix_places }
    ensures value { (tensors : Tensors) → access ≡ step_access tensors types memory step → result ≡ checked_step edition tensors types memory step }
    ensures told { result.stop.number ≡ 0 → Told access entries.new }
{
    match step {
        Step::Nothing => plain_check(0, types),
        Step::Load {
            register,
            object,
            window: _,
        } => {
            let t = registers::the_type(types, turns::object_register(register, object));
            let after = registers::with_type(types, register, t);
            check_moves(entries, types, after, access)
        }
        Step::Store {
            register: _,
            window: _,
        } => check_moves(entries, types, types, access),
        Step::Whole(whole) => check_whole(edition, types, memory, whole),
    }
}

// The types that a step leaves where it is not refused.
pub fn step_types(types: [MatrixType; REGISTERS], step: Step) -> [MatrixType; REGISTERS]
    requires { (edition layouts views : ℕ) × (step_ok edition layouts views step ≡ true) }
    ensures { result ≡ step_types types step }
{
    match step {
        Step::Nothing => types,
        Step::Load {
            register,
            object,
            window: _,
        } => {
            let t = registers::the_type(types, turns::object_register(register, object));
            registers::with_type(types, register, t)
        }
        Step::Store {
            register: _,
            window: _,
        } => types,
        Step::Whole(whole) => whole_steps::types::whole_types(types, whole),
    }
}

// Step by step, from empty registers.
pub fn check(s: &[u8], parts: &[usize; PARTS], given: Given, memory: usize) -> CheckAnswer
    requires { Outlined s.now parts.now given × (memory ≤ memory_limit) }
    ensures { result ≡ checked (sheet_of s.now) memory }
{
    let mut entries = accesses::no_entries();
    let mut types = registers::empty_types();
    let mut count: usize = 0;
    let mut k: usize = 0;
    while k < given.steps {
        let turn = turns::turn_at(s, parts, given, types, memory, k);
        let step = turn.step;
        let access = turn.access;
        let got = check_step(&mut entries, given.edition, types, memory, step, access);
        let stop = got.stop;
        if 0 < stop.number {
            return check_refused(refusals::refusal_at(stop.number, k, stop.element));
        }
        let after = got.types;
        types = after;
        count += got.placed;
        k += 1;
    }
    CheckAnswer {
        refusal: refusals::not_refused(),
        count,
    }
}

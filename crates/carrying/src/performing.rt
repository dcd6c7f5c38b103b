// The performance of a sheet that its check accepts. It cannot fail.
ghost use Rattle.std.specs.Prelude.{◌≡◌, ℕ, ◌≤◌, ◌<◌, ◌^◌, length};
ghost use Rattle.sheet.specs.Sizes.{register_count, matrix_places, element_places, memory_limit};
ghost use Rattle.sheet.specs.declared.Tensors.{Tensors};
ghost use Rattle.sheet_reader.specs.Parts.{sheet_of, Outlined};
ghost use Rattle.registers.specs.Registers.{empty_registers, copied, zeroed};
ghost use Rattle.registers.specs.Sized.{Sized};
ghost use Rattle.registers.specs.Past.{Past};
ghost use Rattle.transfers.specs.Acts.{state};
ghost use Rattle.checking.specs.Steps.{object_register};
ghost use Rattle.checking.specs.Turns.{step_access, Turned};
ghost use Rattle.checking.specs.Checking.{checked};
ghost use Rattle.carrying.specs.Steps.{registers_of, machine_of, with_object, performed_step};
ghost use Rattle.carrying.specs.Carrying.{started, performed};
ghost use Rattle.carrying.specs.Machines.{Accepted, Formed};

use super::{Stepped, moving};
use addressing::Access;
use checking::turns;
use counts::Counts;
use registers::MatrixType;
use sheet::sizes::{ELEMENTS, PLACES, REGISTERS};
use sheet::{Object, Step};
use sheet_reader::{Given, PARTS};

// A register made equal to another, type and elements. The answer is the types.
pub fn copy_register(
    types: [MatrixType; REGISTERS],
    elements: &mut [u32; ELEMENTS],
    register: u8,
    object: u8,
) -> [MatrixType; REGISTERS]
    requires register_lt_register_count { (register < register_count) × (object < register_count) }
    requires sized { Sized types × Past types elements.old × (length elements.old ≡ element_places) }
    ensures { registers_of result elements.new ≡ copied (registers_of types elements.old) register object }
{
    let old = registers::element_count(registers::the_type(types, register));
    let t = registers::the_type(types, object);
    let count = registers::element_count(t);
    registers::copy_elements(elements, register, object, count, old);
    registers::with_type(types, register, t)
}

// A register made zeros of its own type. The answer is the types.
fn zero_register(
    types: [MatrixType; REGISTERS],
    elements: &mut [u32; ELEMENTS],
    register: u8,
) -> [MatrixType; REGISTERS]
    requires { (register < register_count) × Sized types }
    ensures { registers_of result elements.new ≡ zeroed (registers_of types elements.old) register }
{
    let t = registers::the_type(types, register);
    let count = registers::element_count(t);
    registers::fill_elements(elements, register, 0, count, 0);
    types
}

// A load first gives its register the object. The answer is the types.
fn with_object(
    types: [MatrixType; REGISTERS],
    elements: &mut [u32; ELEMENTS],
    register: u8,
    object: Object,
) -> [MatrixType; REGISTERS]
    requires register_lt_register_count { (register < register_count) × (object_register register object < register_count) }
    requires sized { Sized types × Past types elements.old × (length elements.old ≡ element_places) }
    ensures { registers_of result elements.new ≡ with_object register object (registers_of types elements.old) }
{
    match object {
        Object::Kept => types,
        Object::Zeros => zero_register(types, elements, register),
        Object::Register(r) => copy_register(types, elements, register, r),
    }
}

// A step, and the access of its elements.
fn perform_step(
    entries: &mut [u32; PLACES],
    types: [MatrixType; REGISTERS],
    elements: &mut [u32; ELEMENTS],
    memory: &mut [u8],
    step: Step,
    access: Access,
    counts: Counts,
) -> Stepped
    requires placed_bound { (counts.placed < 2 ^ 31) × (length entries.old ≡ matrix_places) × Formed (machine_of types (state elements.old memory.old counts)) }
    requires by_index { (edition : ℕ) × ((tensors : Tensors) × (Turned edition tensors types (length memory.old) step access × Accepted edition tensors step (machine_of types (state elements.old memory.old counts)))) }
    ensures entries_len { length entries.new ≡ matrix_places }
    ensures counts_after { (tensors : Tensors) → access ≡ step_access tensors types (length memory.old) step → machine_of result.types (state elements.new memory.new result.counts) ≡ performed_step tensors step (machine_of types (state elements.old memory.old counts)) }
{
    match step {
        Step::Nothing => Stepped { types, counts },
        Step::Load {
            register,
            object,
            window: _,
        } => {
            let after = with_object(types, elements, register, object);
            let counted = moving::perform_load(entries, elements, memory, access, register, counts);
            Stepped {
                types: after,
                counts: counted,
            }
        }
        Step::Store {
            register,
            window: _,
        } => {
            let counted = moving::perform_store(
                entries, elements, memory, access, register, counts,
            );
            Stepped {
                types,
                counts: counted,
            }
        }
        Step::Whole(whole) => {
            let after = whole_steps::perform_whole(entries, types, elements, memory, whole);
            Stepped {
                types: after,
                counts,
            }
        }
    }
}

// The steps in order, from empty registers and the lent memory.
pub fn perform(
    s: &[u8],
    parts: &[usize; PARTS],
    given: Given,
    memory: &mut [u8],
    elements: &mut [u32; ELEMENTS],
) -> Stepped
    requires elements_value { elements.old ≡ empty_registers.elements }
    requires outlined { Outlined s.now parts.now given × (length memory.old ≤ memory_limit) × ((checked (sheet_of s.now) (length memory.old)).refusal.number ≡ 0) }
    ensures { machine_of result.types (state elements.new memory.new result.counts) ≡ performed (sheet_of s.now) (started memory.old) }
{
    let mut entries = accesses::no_entries();
    let mut types = registers::empty_types();
    let mut counts = counts::no_counts();
    let mut k: usize = 0;
    while k < given.steps {
        let turn = turns::turn_at(s, parts, given, types, memory.len(), k);
        let step = turn.step;
        let access = turn.access;
        let done = perform_step(&mut entries, types, elements, memory, step, access, counts);
        let after = done.types;
        types = after;
        counts = done.counts;
        k += 1;
    }
    Stepped { types, counts }
}

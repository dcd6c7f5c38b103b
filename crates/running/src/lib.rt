// A tape run with its sheet: every record's range first, then the records, which cannot fail.
#![tactic(auto)]

ghost use Rattle.std.specs.Prelude.{◌≡◌, true, ℕ, ◌+◌, ◌*◌, ◌<◌, ◌≤◌, ◌^◌, length};
ghost use Rattle.sheet.specs.Sizes.{matrix_places, element_places, record_places};
ghost use Rattle.sheet_reader.specs.Parts.{sheet_of, Outlined};
ghost use Rattle.sheet.specs.declared.Tensors.{Tensors};
ghost use Rattle.registers.specs.Registers.{empty_registers};
ghost use Rattle.registers.specs.Sized.{Sized};
ghost use Rattle.registers.specs.Past.{Past};
ghost use Rattle.counts.specs.declared.Counts.{Counts};
ghost use Rattle.transfers.specs.Acts.{state};
ghost use Rattle.carrying.specs.Steps.{machine_of, performed_step};
ghost use Rattle.carrying.specs.Carrying.{started, answer_with};
ghost use Rattle.records.specs.Records.{record_length};
ghost use Rattle.records.specs.Ranges.{GoodInRange};
ghost use Rattle.records.specs.declared.Decoded.TheVariants.{Good};
ghost use Rattle.judging.specs.Records.{whole_clear, record_ok_with};
ghost use Rattle.judging.specs.Judging.{tape_record, decoded_ok_with, range_refusal};
ghost use Rattle.judging.specs.Laws.Named.{Placed};
ghost use Rattle.running.specs.Records.{ran_record_with};
ghost use Rattle.running.specs.Running.{ran_decoded_with, ran, run_tape, ran_memory};

use carrying::{CarryAnswer, Stepped};
use counts::Counts;
use records::{Decoded, Record};
use registers::MatrixType;
use sheet::Step;
use sheet::sizes::{ELEMENTS, PLACES, REGISTERS};
use sheet_reader::{Given, PARTS};

// A whole step. The answer is the types.
fn perform_named(
    block: &mut [u32; PLACES],
    types: [MatrixType; REGISTERS],
    elements: &mut [u32; ELEMENTS],
    memory: &[u8],
    step: Step,
) -> [MatrixType; REGISTERS]
    requires sized { Sized types × ((edition : ℕ) × Placed edition step × (whole_clear edition types (length memory.now) step ≡ true)) }
    requires past { Past types elements.old × (length elements.old ≡ element_places) × (length block.old ≡ matrix_places) }
    ensures block_len { length block.new ≡ matrix_places }
    ensures c_after { (tensors : Tensors) (c : Counts) → machine_of result (state elements.new memory.now c) ≡ performed_step tensors step (machine_of types (state elements.old memory.now c)) }
{
    match step {
        Step::Nothing => types,
        Step::Load {
            register: _,
            object: _,
            window: _,
        } => types,
        Step::Store {
            register: _,
            window: _,
        } => types,
        Step::Whole(whole) => whole_steps::perform_whole(block, types, elements, memory, whole),
    }
}

// The sheet is not passed for each record: the step that the record names stands for it.
fn run_record(
    block: &mut [u32; PLACES],
    types: [MatrixType; REGISTERS],
    elements: &mut [u32; ELEMENTS],
    memory: &mut [u8],
    named: Step,
    r: Record,
    counted: Counts,
) -> Stepped
    requires sized { Sized types × GoodInRange (Good r) × (counted.placed < 2 ^ 31) }
    requires by_index { (edition steps : ℕ) × Placed edition named × (record_ok_with edition steps types (length memory.old) named r ≡ true) }
    requires past { Past types elements.old × (length elements.old ≡ element_places) × (length block.old ≡ matrix_places) }
    ensures block_len { length block.new ≡ matrix_places }
    ensures counts_after { (tensors : Tensors) → machine_of result.types (state elements.new memory.new result.counts) ≡ ran_record_with tensors named r (machine_of types (state elements.old memory.old counted)) }
{
    match r {
        Record::Copy { register, object } => {
            let after = carrying::performing::copy_register(types, elements, register, object);
            Stepped {
                types: after,
                counts: counted,
            }
        }
        Record::Take {
            register,
            first,
            count,
            byte,
            up,
            down,
        } => {
            moves::take(
                types, elements, memory, register, first, count, byte, up, down,
            );
            Stepped {
                types,
                counts: counts::more_placed(counted, count),
            }
        }
        Record::Put {
            register,
            first,
            count,
            byte,
            up,
            down,
        } => {
            moves::put(
                types, elements, memory, register, first, count, byte, up, down,
            );
            Stepped {
                types,
                counts: counts::more_placed(counted, count),
            }
        }
        Record::Fill {
            register,
            first,
            count,
            value,
        } => {
            moves::fill(types, elements, register, first, count, value);
            Stepped {
                types,
                counts: counted,
            }
        }
        Record::Whole { step: _ } => {
            let after = perform_named(block, types, elements, memory, named);
            Stepped {
                types: after,
                counts: counted,
            }
        }
    }
}

fn run_decoded(
    block: &mut [u32; PLACES],
    types: [MatrixType; REGISTERS],
    elements: &mut [u32; ELEMENTS],
    memory: &mut [u8],
    named: Step,
    d: Decoded,
    counted: Counts,
) -> Stepped
    requires sized { Sized types × GoodInRange d × (counted.placed < 2 ^ 31) }
    requires by_index { (edition steps : ℕ) × Placed edition named × (decoded_ok_with edition steps types (length memory.old) named d ≡ true) }
    requires past { Past types elements.old × (length elements.old ≡ element_places) × (length block.old ≡ matrix_places) }
    ensures block_len { length block.new ≡ matrix_places }
    ensures counts_after { (tensors : Tensors) → machine_of result.types (state elements.new memory.new result.counts) ≡ ran_decoded_with tensors named d (machine_of types (state elements.old memory.old counted)) }
{
    match d {
        Decoded::Good(r) => run_record(block, types, elements, memory, named, r, counted),
        Decoded::Bad => Stepped {
            types,
            counts: counted,
        },
    }
}

// The records in order, from empty registers and the lent memory.
fn run_records(
    s: &[u8],
    parts: &[usize; PARTS],
    given: Given,
    tape: &[i32],
    records: usize,
    memory: &mut [u8],
    elements: &mut [u32; ELEMENTS],
) -> Stepped
    requires elements_value { elements.old ≡ empty_registers.elements }
    requires outlined { Outlined s.now parts.now given × (records ≤ record_places) × (records * record_length ≤ length tape.now) }
    requires tape_value { (range_refusal records (sheet_of s.now) (length memory.old) (tape_record tape.now)).number ≡ 0 }
    ensures { machine_of result.types (state elements.new memory.new result.counts) ≡ ran records (sheet_of s.now) (tape_record tape.now) (started memory.old) }
{
    let mut block = [0u32; PLACES];
    let mut types = registers::empty_types();
    let mut counts = counts::no_counts();
    let mut k: usize = 0;
    while k < records {
        let d = records::read_record(tape, k * records::NUMBERS);
        let named = judging::step_named(s, parts, given, d);
        let done = run_decoded(&mut block, types, elements, memory, named, d, counts);
        let after = done.types;
        types = after;
        counts = done.counts;
        k += 1;
    }
    Stepped { types, counts }
}

// Runs a tape with its sheet on the lent memory, with the registers' elements in the lent array. Refused: memory is unchanged and the registers are empty.
pub fn run_tape(
    sheet: &[u8],
    tape: &[i32],
    records: usize,
    memory: &mut [u8],
    elements: &mut [u32; ELEMENTS],
) -> CarryAnswer
    ensures elements_after { answer_with result elements.new ≡ run_tape sheet.now tape.now records memory.old }
    ensures memory_after { memory.new ≡ ran_memory sheet.now tape.now records memory.old }
{
    registers::empty_elements(elements);
    let mut parts = sheet_parts::no_parts();
    let read = checking::admit(sheet, &mut parts, memory.len());
    let unread = read.refusal;
    if 0 < unread.number {
        return carrying::carry_refused(unread);
    }
    let given = read.given;
    let refused = judging::tape_refusal(sheet, &parts, given, tape, records, memory.len());
    if 0 < refused.number {
        return carrying::carry_refused(refused);
    }
    let done = run_records(sheet, &parts, given, tape, records, memory, elements);
    let types = done.types;
    let counts = done.counts;
    CarryAnswer {
        refusal: refusals::not_refused(),
        counts,
        types,
    }
}

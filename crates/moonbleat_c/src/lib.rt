// The C interface of include/moonbleat.h: the eleven public routines, with rows of numbers in place of structs.
#![tactic(auto)]

ghost use Rattle.std.specs.Prelude.{◌≡◌, [], ◌∷◌, length};
ghost use Rattle.numbers.specs.Choice.{pick};
ghost use Rattle.sheet_reader.specs.Reading.{read_sheet};
ghost use Rattle.checking.specs.Checking.{checked_sheet};
ghost use Rattle.carrying.specs.Carrying.{carried, carried_memory};
ghost use Rattle.dividing.specs.Dividing.{counted};
ghost use Rattle.explaining.specs.Explaining.{explained_sheet};
ghost use Rattle.masks.specs.Masks.{touched};
ghost use Rattle.translating.specs.Translating.{translated, translated_room, translated_masks};
ghost use Rattle.running.specs.Running.{run_tape, ran_memory};
ghost use Rattle.tracing.specs.Tracing.{traced, traced_room};
ghost use Rattle.replaying.specs.Replaying.{replayed};
ghost use Rattle.rows.specs.Rows.{answer_row, counts_row, types_row, verdict_row, outcome_row, capped};
ghost use Rattle.moonbleat.specs.Rewriting.{rewritten, rewritten_room};

use rows::{ANSWER, COUNTS, OUTCOME, TYPES, VERDICT};
use sheet::sizes::ELEMENTS;

// Reads a sheet.
#[unsafe(no_mangle)]
pub extern "C" fn moonbleat_read(
    sheet: &[u8],
    counts: &mut [u32; COUNTS],
    answer: &mut [u32; ANSWER],
) -> u32
    ensures value { result ≡ (read_sheet sheet.now).refusal.number }
    ensures counts_after { counts.new ≡ counts_row (read_sheet sheet.now).sheet }
    ensures answer_after { answer.new ≡ answer_row (read_sheet sheet.now).refusal 0 }
{
    moonbleat::moonbleat_read(sheet, counts, answer)
}

// Reads a sheet and writes what was read.
#[unsafe(no_mangle)]
pub extern "C" fn moonbleat_rewrite(sheet: &[u8], out: &mut [u8], answer: &mut [u32; ANSWER]) -> u32
    ensures value { result ≡ (rewritten sheet.now (length out.old)).refusal.number }
    ensures out_after { out.new ≡ rewritten_room sheet.now out.old }
    ensures answer_after { answer.new ≡ answer_row (rewritten sheet.now (length out.old)).refusal (rewritten sheet.now (length out.old)).bytes }
{
    moonbleat::moonbleat_rewrite(sheet, out, answer)
}

// Checks a sheet for a memory of a length.
#[unsafe(no_mangle)]
pub extern "C" fn moonbleat_check(
    sheet: &[u8],
    memory_len: usize,
    answer: &mut [u32; ANSWER],
) -> u32
    ensures value { result ≡ (checked_sheet sheet.now memory_len).refusal.number }
    ensures answer_after { answer.new ≡ answer_row (checked_sheet sheet.now memory_len).refusal (checked_sheet sheet.now memory_len).count }
{
    moonbleat::moonbleat_check(sheet, memory_len, answer)
}

// Counts the divisions of rule 3 over a sheet's loads and stores, for a memory of a length.
#[unsafe(no_mangle)]
pub extern "C" fn moonbleat_divisions(
    sheet: &[u8],
    memory_len: usize,
    answer: &mut [u32; ANSWER],
) -> u32
    ensures value { result ≡ (counted sheet.now memory_len).refusal.number }
    ensures answer_after { answer.new ≡ answer_row (counted sheet.now memory_len).refusal (counted sheet.now memory_len).divisions }
{
    moonbleat::moonbleat_divisions(sheet, memory_len, answer)
}

// Explains one element of a sheet's load or store for a memory of a length.
#[unsafe(no_mangle)]
pub extern "C" fn moonbleat_outcome(
    sheet: &[u8],
    memory_len: usize,
    step: u32,
    element: u32,
    outcome: &mut [u32; OUTCOME],
    answer: &mut [u32; ANSWER],
) -> u32
    ensures value { result ≡ (explained_sheet sheet.now memory_len «step» «element»).refusal.number }
    ensures outcome_after { outcome.new ≡ outcome_row (explained_sheet sheet.now memory_len «step» «element»).explained }
    ensures answer_after { answer.new ≡ answer_row (explained_sheet sheet.now memory_len «step» «element»).refusal 0 }
{
    moonbleat::moonbleat_outcome(sheet, memory_len, step, element, outcome, answer)
}

// Carries out a sheet on the lent memory.
#[unsafe(no_mangle)]
pub extern "C" fn moonbleat_carry_out(
    sheet: &[u8],
    memory: &mut [u8],
    types: &mut [u8; TYPES],
    elements: &mut [u32; ELEMENTS],
    answer: &mut [u32; ANSWER],
) -> u32
    ensures value { result ≡ (carried sheet.now memory.old).refusal.number }
    ensures memory_after { memory.new ≡ carried_memory sheet.now memory.old }
    ensures types_after { types.new ≡ types_row (carried sheet.now memory.old).registers.types }
    ensures elements_after { elements.new ≡ (carried sheet.now memory.old).registers.elements }
    ensures answer_after { answer.new ≡ answer_row (carried sheet.now memory.old).refusal (carried sheet.now memory.old).counts.placed }
{
    moonbleat::moonbleat_carry_out(sheet, memory, types, elements, answer)
}

// Translates a sheet for a memory of a length into the lent tape and mask area.
#[unsafe(no_mangle)]
pub extern "C" fn moonbleat_translate(
    sheet: &[u8],
    memory_len: usize,
    tape: &mut [i32],
    masks: &mut [u8],
    records: &mut [u32; 1],
    answer: &mut [u32; ANSWER],
) -> u32
    ensures value { result ≡ (translated sheet.now memory_len (length tape.old) (length masks.old)).refusal.number }
    ensures tape_after { tape.new ≡ translated_room sheet.now memory_len tape.old (length masks.old) }
    ensures masks_after { masks.new ≡ translated_masks sheet.now memory_len (length tape.old) masks.old }
    ensures records_after { records.new ≡ (translated sheet.now memory_len (length tape.old) (length masks.old)).records ∷ [] }
    ensures answer_after { answer.new ≡ answer_row (translated sheet.now memory_len (length tape.old) (length masks.old)).refusal (translated sheet.now memory_len (length tape.old) (length masks.old)).count }
{
    moonbleat::moonbleat_translate(sheet, memory_len, tape, masks, records, answer)
}

// Did a step touch an element, by its mask? 1 or 0.
#[unsafe(no_mangle)]
pub extern "C" fn moonbleat_touched(masks: &[u8], step: u32, element: u32) -> u32
    ensures { result ≡ pick (touched masks.now «step» «element») 1 0 }
{
    moonbleat::moonbleat_touched(masks, step, element)
}

// Runs a tape with its sheet on the lent memory.
#[unsafe(no_mangle)]
pub extern "C" fn moonbleat_run(
    sheet: &[u8],
    tape: &[i32],
    records: usize,
    memory: &mut [u8],
    types: &mut [u8; TYPES],
    elements: &mut [u32; ELEMENTS],
    answer: &mut [u32; ANSWER],
) -> u32
    ensures value { result ≡ (run_tape sheet.now tape.now records memory.old).refusal.number }
    ensures memory_after { memory.new ≡ ran_memory sheet.now tape.now records memory.old }
    ensures types_after { types.new ≡ types_row (run_tape sheet.now tape.now records memory.old).registers.types }
    ensures elements_after { elements.new ≡ (run_tape sheet.now tape.now records memory.old).registers.elements }
    ensures answer_after { answer.new ≡ answer_row (run_tape sheet.now tape.now records memory.old).refusal (run_tape sheet.now tape.now records memory.old).counts.placed }
{
    moonbleat::moonbleat_run(sheet, tape, records, memory, types, elements, answer)
}

// Writes the trace that a sheet makes in a memory of a length into the lent room.
#[unsafe(no_mangle)]
pub extern "C" fn moonbleat_trace(
    sheet: &[u8],
    memory_len: usize,
    out: &mut [u8],
    answer: &mut [u32; ANSWER],
) -> u32
    ensures value { result ≡ (traced sheet.now memory_len (length out.old)).refusal.number }
    ensures out_after { out.new ≡ traced_room sheet.now memory_len out.old }
    ensures answer_after { answer.new ≡ answer_row (traced sheet.now memory_len (length out.old)).refusal (traced sheet.now memory_len (length out.old)).bytes }
{
    moonbleat::moonbleat_trace(sheet, memory_len, out, answer)
}

// Replays a trace against a sheet and a memory's length.
#[unsafe(no_mangle)]
pub extern "C" fn moonbleat_replay(
    sheet: &[u8],
    memory_len: usize,
    trace: &[u8],
    verdict: &mut [u32; VERDICT],
    answer: &mut [u32; ANSWER],
) -> u32
    ensures value { result ≡ (replayed sheet.now memory_len trace.now).refusal.number }
    ensures verdict_after { verdict.new ≡ verdict_row (replayed sheet.now memory_len trace.now).verdict }
    ensures answer_after { answer.new ≡ answer_row (capped (replayed sheet.now memory_len trace.now).refusal) (replayed sheet.now memory_len trace.now).count }
{
    moonbleat::moonbleat_replay(sheet, memory_len, trace, verdict, answer)
}

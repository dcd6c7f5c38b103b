// The eleven public routines of include/moonbleat.h, with rows of numbers in place of structs.
#![tactic(auto)]

ghost use Rattle.std.specs.Prelude.{◌≡◌, [], ◌∷◌, length};
ghost use Rattle.numbers.specs.Choice.{pick};
ghost use Rattle.sheet_reader.specs.Reading.{read_sheet};
ghost use Rattle.checking.specs.Checking.{checked_sheet};
ghost use Rattle.carrying.specs.Carrying.{carried, carried_memory};
ghost use Rattle.dividing.specs.Dividing.{counted};
ghost use Rattle.explaining.specs.Explaining.{explained_sheet};
ghost use Rattle.masks.specs.Masks.{touched};
ghost use Rattle.translating.specs.Translating.{translated, translated_room, translated_masks};
ghost use Rattle.running.specs.Running.{run_tape, ran_memory};
ghost use Rattle.tracing.specs.Tracing.{traced, traced_room};
ghost use Rattle.replaying.specs.Replaying.{replayed};
ghost use Rattle.rows.specs.Rows.{answer_row, counts_row, types_row, verdict_row, outcome_row, capped};
ghost use Rattle.moonbleat.specs.Rewriting.{rewritten, rewritten_room};

use rows::{ANSWER, COUNTS, OUTCOME, TYPES, VERDICT};
use sheet::sizes::ELEMENTS;

// Reads a sheet.
pub fn moonbleat_read(sheet: &[u8], counts: &mut [u32; COUNTS], answer: &mut [u32; ANSWER]) -> u32
    ensures value { result ≡ (read_sheet sheet.now).refusal.number }
    ensures counts_after { counts.new ≡ counts_row (read_sheet sheet.now).sheet }
    ensures answer_after { answer.new ≡ answer_row (read_sheet sheet.now).refusal 0 }
{
    let mut parts = sheet_parts::no_parts();
    let read = sheet_reader::outline_sheet(sheet, &mut parts);
    let given = read.given;
    *counts = [given.layouts as u32, given.views as u32, given.steps as u32];
    rows::put_answer(answer, read.refusal, 0)
}

// Reads a sheet and writes what was read.
pub fn moonbleat_rewrite(sheet: &[u8], out: &mut [u8], answer: &mut [u32; ANSWER]) -> u32
    ensures value { result ≡ (rewritten sheet.now (length out.old)).refusal.number }
    ensures out_after { out.new ≡ rewritten_room sheet.now out.old }
    ensures answer_after { answer.new ≡ answer_row (rewritten sheet.now (length out.old)).refusal (rewritten sheet.now (length out.old)).bytes }
{
    let read = sheet_parts::read_sheet(sheet);
    let refusal = read.refusal;
    if 0 < refusal.number {
        return rows::put_answer(answer, refusal, 0);
    }
    let model = read.sheet;
    let written = sheet_writer::write_sheet(model, out);
    rows::put_answer(answer, written.refusal, written.bytes)
}

// Checks a sheet for a memory of a length.
pub fn moonbleat_check(sheet: &[u8], memory_len: usize, answer: &mut [u32; ANSWER]) -> u32
    ensures value { result ≡ (checked_sheet sheet.now memory_len).refusal.number }
    ensures answer_after { answer.new ≡ answer_row (checked_sheet sheet.now memory_len).refusal (checked_sheet sheet.now memory_len).count }
{
    let found = checking::check_sheet(sheet, memory_len);
    rows::put_answer(answer, found.refusal, found.count)
}

// Counts the divisions of rule 3 over a sheet's loads and stores, for a memory of a length.
pub fn moonbleat_divisions(sheet: &[u8], memory_len: usize, answer: &mut [u32; ANSWER]) -> u32
    ensures value { result ≡ (counted sheet.now memory_len).refusal.number }
    ensures answer_after { answer.new ≡ answer_row (counted sheet.now memory_len).refusal (counted sheet.now memory_len).divisions }
{
    let found = dividing::count_divisions(sheet, memory_len);
    rows::put_answer(answer, found.refusal, found.divisions)
}

// Explains one element of a sheet's load or store for a memory of a length.
pub fn moonbleat_outcome(
    sheet: &[u8],
    memory_len: usize,
    step: u32,
    element: u32,
    outcome: &mut [u32; OUTCOME],
    answer: &mut [u32; ANSWER],
) -> u32
    ensures value { result ≡ (explained_sheet sheet.now memory_len «step» «element»).refusal.number }
    ensures outcome_after { outcome.new ≡ outcome_row (explained_sheet sheet.now memory_len «step» «element»).explained }
    ensures answer_after { answer.new ≡ answer_row (explained_sheet sheet.now memory_len «step» «element»).refusal 0 }
{
    let found = explaining::explain(sheet, memory_len, step as usize, element as usize);
    let told = found.explained;
    rows::put_outcome(outcome, told);
    rows::put_answer(answer, found.refusal, 0)
}

// Carries out a sheet on the lent memory.
pub fn moonbleat_carry_out(
    sheet: &[u8],
    memory: &mut [u8],
    types: &mut [u8; TYPES],
    elements: &mut [u32; ELEMENTS],
    answer: &mut [u32; ANSWER],
) -> u32
    ensures value { result ≡ (carried sheet.now memory.old).refusal.number }
    ensures memory_after { memory.new ≡ carried_memory sheet.now memory.old }
    ensures types_after { types.new ≡ types_row (carried sheet.now memory.old).registers.types }
    ensures elements_after { elements.new ≡ (carried sheet.now memory.old).registers.elements }
    ensures answer_after { answer.new ≡ answer_row (carried sheet.now memory.old).refusal (carried sheet.now memory.old).counts.placed }
{
    let done = carrying::carry_out(sheet, memory, elements);
    let left = done.types;
    rows::put_types(types, left);
    rows::put_answer(answer, done.refusal, done.counts.placed)
}

// Translates a sheet for a memory of a length into the lent tape and mask area.
pub fn moonbleat_translate(
    sheet: &[u8],
    memory_len: usize,
    tape: &mut [i32],
    masks: &mut [u8],
    records: &mut [u32; 1],
    answer: &mut [u32; ANSWER],
) -> u32
    ensures value { result ≡ (translated sheet.now memory_len (length tape.old) (length masks.old)).refusal.number }
    ensures tape_after { tape.new ≡ translated_room sheet.now memory_len tape.old (length masks.old) }
    ensures masks_after { masks.new ≡ translated_masks sheet.now memory_len (length tape.old) masks.old }
    ensures records_after { records.new ≡ (translated sheet.now memory_len (length tape.old) (length masks.old)).records ∷ [] }
    ensures answer_after { answer.new ≡ answer_row (translated sheet.now memory_len (length tape.old) (length masks.old)).refusal (translated sheet.now memory_len (length tape.old) (length masks.old)).count }
{
    let made = translating::translate(sheet, memory_len, tape, masks);
    *records = [made.records as u32];
    rows::put_answer(answer, made.refusal, made.count)
}

// Did a step touch an element, by its mask? 1 or 0.
pub fn moonbleat_touched(masks: &[u8], step: u32, element: u32) -> u32
    ensures { result ≡ pick (touched masks.now «step» «element») 1 0 }
{
    if masks::touched(masks, step as usize, element as usize) {
        return 1;
    }
    0
}

// Runs a tape with its sheet on the lent memory.
pub fn moonbleat_run(
    sheet: &[u8],
    tape: &[i32],
    records: usize,
    memory: &mut [u8],
    types: &mut [u8; TYPES],
    elements: &mut [u32; ELEMENTS],
    answer: &mut [u32; ANSWER],
) -> u32
    ensures value { result ≡ (run_tape sheet.now tape.now records memory.old).refusal.number }
    ensures memory_after { memory.new ≡ ran_memory sheet.now tape.now records memory.old }
    ensures types_after { types.new ≡ types_row (run_tape sheet.now tape.now records memory.old).registers.types }
    ensures elements_after { elements.new ≡ (run_tape sheet.now tape.now records memory.old).registers.elements }
    ensures answer_after { answer.new ≡ answer_row (run_tape sheet.now tape.now records memory.old).refusal (run_tape sheet.now tape.now records memory.old).counts.placed }
{
    let done = running::run_tape(sheet, tape, records, memory, elements);
    let left = done.types;
    rows::put_types(types, left);
    rows::put_answer(answer, done.refusal, done.counts.placed)
}

// Writes the trace that a sheet makes in a memory of a length into the lent room.
pub fn moonbleat_trace(
    sheet: &[u8],
    memory_len: usize,
    out: &mut [u8],
    answer: &mut [u32; ANSWER],
) -> u32
    ensures value { result ≡ (traced sheet.now memory_len (length out.old)).refusal.number }
    ensures out_after { out.new ≡ traced_room sheet.now memory_len out.old }
    ensures answer_after { answer.new ≡ answer_row (traced sheet.now memory_len (length out.old)).refusal (traced sheet.now memory_len (length out.old)).bytes }
{
    let made = tracing::trace(sheet, memory_len, out);
    rows::put_answer(answer, made.refusal, made.bytes)
}

// Replays a trace against a sheet and a memory's length.
pub fn moonbleat_replay(
    sheet: &[u8],
    memory_len: usize,
    trace: &[u8],
    verdict: &mut [u32; VERDICT],
    answer: &mut [u32; ANSWER],
) -> u32
    ensures value { result ≡ (replayed sheet.now memory_len trace.now).refusal.number }
    ensures verdict_after { verdict.new ≡ verdict_row (replayed sheet.now memory_len trace.now).verdict }
    ensures answer_after { answer.new ≡ answer_row (capped (replayed sheet.now memory_len trace.now).refusal) (replayed sheet.now memory_len trace.now).count }
{
    let found = replaying::replay(sheet, memory_len, trace);
    let said = found.verdict;
    rows::put_verdict(verdict, said);
    rows::put_answer(answer, rows::cap(found.refusal), found.count)
}

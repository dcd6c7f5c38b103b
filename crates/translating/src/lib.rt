// Translating a sheet: the check, which counts the records as it goes, then the records themselves and, of the same surveys, the masks.
#![tactic(auto)]

ghost use Rattle.std.specs.Prelude.{◌≡◌, true, [], ◌∷◌, ℕ, ◌*◌, ◌<◌, ◌≤◌, leb, length};
ghost use Rattle.std.proofs.lemmas.List.Edits.{sets};
ghost use Rattle.numbers.specs.Choice.{both};
ghost use Rattle.sheet.specs.Sizes.{register_count, step_places, matrix_places, memory_limit};
ghost use Rattle.sheet_ranges.specs.Steps.{step_ok};
ghost use Rattle.sheet_reader.specs.Parts.{sheet_of, Outlined};
ghost use Rattle.sheet_reader.specs.declared.Given.{Given};
ghost use Rattle.registers.specs.declared.MatrixType.{MatrixType};
ghost use Rattle.addressing.specs.Rules.{elements_of};
ghost use Rattle.addressing.specs.declared.Access.{Access};
ghost use Rattle.accesses.specs.Entries.{Told};
ghost use Rattle.checking.specs.Steps.{object_register};
ghost use Rattle.checking.specs.Turns.{step_access};
ghost use Rattle.checking.specs.Checking.{checked};
ghost use Rattle.records.specs.Records.{record_length, tape_numbers};
ghost use Rattle.records.specs.Ranges.{InRange};
ghost use Rattle.records.specs.declared.Record.TheVariants.{Whole};
ghost use Rattle.access_tapes.specs.Accesses.{access_outcomes};
ghost use Rattle.access_tapes.specs.Writing.{Room, Wrote};
ghost use Rattle.records.specs.Room.{records_fit};
ghost use Rattle.masks.specs.Masks.{mask_area, mask_place, bit_of, mask_of};
ghost use Rattle.translating.specs.Tapes.{object_records, tape_of};
ghost use Rattle.translating.specs.Turns.{matrix_of, apart_records, moved_register, turn_records, records_most, ClearTurn};
ghost use Rattle.translating.specs.Masks.{sheet_masks};
ghost use Rattle.translating.specs.Translating.{translate_answer, translated, translated_room, translated_masks};

use addressing::Access;
use checking::{checks, turns};
use masks::MASK_AREA;
use records::Record;
use refusals::{Refusal, TAPE_TOO_LONG};
use registers::MatrixType;
use sheet::sizes::{PLACES, REGISTERS, STEPS};
use sheet::{Object, Step};
use sheet_reader::{Given, PARTS};

// The answer of translating: a refusal, or how many elements of loads and stores have a byte and how many records were written.
#[derive(Clone, Copy)]
pub struct TranslateAnswer {
    pub refusal: Refusal,
    pub count: usize,
    pub records: usize,
}

// What the check of a sheet refuses, or how many elements of loads and stores have a byte and how many records the tape has.
#[derive(Clone, Copy)]
pub struct Counted {
    pub refusal: Refusal,
    pub count: usize,
    pub records: usize,
}

// Writes record `at` of a tape: the next record's number.
fn write_record(tape: &mut [i32], at: usize, r: Record) -> usize
    requires { InRange r × Room tape.old at (r ∷ []) }
    ensures { Wrote tape.old tape.new at (r ∷ []) result }
{
    record_writer::put_record(tape, at * records::NUMBERS, r);
    at + 1
}

// The record that gives a load's register its object: a copy, a fill of 0 over the whole matrix, or none.
fn count_object(object: Object) -> usize
    ensures by_index { (register : ℕ) (t : MatrixType) → result ≡ length (object_records register object t) }
    ensures upper_bound { result ≤ 1 }
{
    match object {
        Object::Kept => 0,
        Object::Zeros => 1,
        Object::Register(_) => 1,
    }
}

fn write_object(tape: &mut [i32], at: usize, register: u8, object: Object, access: Access) -> usize
    requires register_lt_register_count { (register < register_count) × (object_register register object < register_count) × (0 < elements_of access) × (elements_of access ≤ matrix_places) }
    requires room { Room tape.old at (object_records register object (matrix_of access)) }
    ensures { Wrote tape.old tape.new at (object_records register object (matrix_of access)) result }
{
    match object {
        Object::Kept => at,
        Object::Zeros => {
            let count = (access.rows as usize) * (access.columns as usize);
            let fill = Record::Fill {
                register,
                first: 0,
                count,
                value: 0,
            };
            write_record(tape, at, fill)
        }
        Object::Register(source) => {
            let copy = Record::Copy {
                register,
                object: source,
            };
            write_record(tape, at, copy)
        }
    }
}

// The record of a step that is none of its runs: a load's object, or a whole step.
fn count_apart(step: Step) -> usize
    ensures by_index { (k : ℕ) (a : Access) → result ≡ length (apart_records k step a) }
    ensures upper_bound { result ≤ 1 }
{
    match step {
        Step::Nothing => 0,
        Step::Load {
            register: _,
            object,
            window: _,
        } => count_object(object),
        Step::Store {
            register: _,
            window: _,
        } => 0,
        Step::Whole(_) => 1,
    }
}

fn write_apart(tape: &mut [i32], at: usize, k: usize, step: Step, access: Access) -> usize
    requires clear_turn { ClearTurn step access × (k < step_places) }
    requires room { Room tape.old at (apart_records k step access) }
    ensures { Wrote tape.old tape.new at (apart_records k step access) result }
{
    match step {
        Step::Nothing => at,
        Step::Load {
            register,
            object,
            window: _,
        } => write_object(tape, at, register, object, access),
        Step::Store {
            register: _,
            window: _,
        } => at,
        Step::Whole(_) => {
            let whole = Record::Whole { step: k };
            write_record(tape, at, whole)
        }
    }
}

// The register that a load or a store moves.
fn moved_register(step: Step) -> u8
    ensures { result ≡ moved_register step }
{
    match step {
        Step::Nothing => 0,
        Step::Load {
            register,
            object: _,
            window: _,
        } => register,
        Step::Store {
            register,
            window: _,
        } => register,
        Step::Whole(_) => 0,
    }
}

// How many records a step becomes, by the entries that its check left.
fn count_step(entries: &[u32; PLACES], step: Step, access: Access) -> usize
    requires { (elements_of access ≤ matrix_places) × Told access entries.now }
    ensures by_index { (k : ℕ) → result ≡ length (turn_records k step access) }
    ensures upper_bound { result ≤ records_most }
{
    count_apart(step) + access_tapes::count_access(entries, access)
}

// Writes the records of step k from record `at` of a tape on, and the step's mask: the next record's number.
fn write_step(
    tape: &mut [i32],
    masks: &mut [u8],
    entries: &mut [u32; PLACES],
    at: usize,
    k: usize,
    step: Step,
    access: Access,
) -> usize
    requires clear_turn { ClearTurn step access × (length entries.old ≡ matrix_places) }
    requires k_lt_step_places { (k < step_places) × (mask_area ≤ length masks.old) }
    requires room { Room tape.old at (turn_records k step access) }
    ensures entries_len { length entries.new ≡ matrix_places }
    ensures wrote { Wrote tape.old tape.new at (turn_records k step access) result }
    ensures masks_after { masks.new ≡ sets masks.old (mask_place k) (mask_of (bit_of (access_outcomes access))) }
{
    let register = moved_register(step);
    let next = write_apart(tape, at, k, step, access);
    access_tapes::write_access(tape, masks, entries, next, k, access, register)
}

// A whole step: one record, and an empty mask.
fn write_whole(tape: &mut [i32], masks: &mut [u8], at: usize, k: usize) -> usize
    requires { (k < step_places) × (mask_area ≤ length masks.old) × Room tape.old at (Whole k ∷ []) }
    ensures wrote { Wrote tape.old tape.new at (Whole k ∷ []) result }
    ensures masks_after { masks.new ≡ sets masks.old (mask_place k) (mask_of (bit_of [])) }
{
    masks::clear_masks(masks, k, k + 1);
    let whole = Record::Whole { step: k };
    write_record(tape, at, whole)
}

// The records and the mask of step k, at the types that the steps before left. Only a step that moves elements is asked for their access.
fn write_turn(
    tape: &mut [i32],
    masks: &mut [u8],
    entries: &mut [u32; PLACES],
    s: &[u8],
    parts: &[usize; PARTS],
    types: [MatrixType; REGISTERS],
    memory: usize,
    at: usize,
    k: usize,
    step: Step,
) -> usize
    requires by_index { ((g : Given) × Outlined s.now parts.now g) × ((edition : ℕ) × (step_ok edition (sheet_of s.now).tensors.layouts (sheet_of s.now).tensors.views step ≡ true)) }
    requires clear_turn { ClearTurn step (step_access (sheet_of s.now).tensors types memory step) × (length entries.old ≡ matrix_places) }
    requires k_lt_step_places { (k < step_places) × (mask_area ≤ length masks.old) }
    requires room { Room tape.old at (turn_records k step (step_access (sheet_of s.now).tensors types memory step)) }
    ensures entries_len { length entries.new ≡ matrix_places }
    ensures wrote { Wrote tape.old tape.new at (turn_records k step (step_access (sheet_of s.now).tensors types memory step)) result }
    ensures masks_after { masks.new ≡ sets masks.old (mask_place k) (mask_of (bit_of (access_outcomes (step_access (sheet_of s.now).tensors types memory step)))) }
{
    match step {
        Step::Whole(_) => write_whole(tape, masks, at, k),
        _ => {
            let access = turns::step_access(s, parts, types, memory, step);
            write_step(tape, masks, entries, at, k, step, access)
        }
    }
}

// The steps in order, from empty registers: each is checked, and its records are counted by what its check left in the entries, so that no
// element is located once more.
fn count_tape(s: &[u8], parts: &[usize; PARTS], given: Given, memory: usize) -> Counted
    requires { Outlined s.now parts.now given × (memory ≤ memory_limit) }
    ensures refusal_value { result.refusal ≡ (checked (sheet_of s.now) memory).refusal }
    ensures count_value { result.refusal.number ≡ 0 → (result.count ≡ (checked (sheet_of s.now) memory).count) × (result.records ≡ length (tape_of (sheet_of s.now) memory)) }
{
    let mut entries = accesses::no_entries();
    let mut types = registers::empty_types();
    let mut count: usize = 0;
    let mut records: usize = 0;
    let mut k: usize = 0;
    while k < given.steps {
        let turn = turns::turn_at(s, parts, given, types, memory, k);
        let step = turn.step;
        let access = turn.access;
        let got = checks::check_step(&mut entries, given.edition, types, memory, step, access);
        let stop = got.stop;
        if 0 < stop.number {
            return Counted {
                refusal: refusals::refusal_at(stop.number, k, stop.element),
                count: 0,
                records: 0,
            };
        }
        records += count_step(&entries, step, access);
        let after = got.types;
        types = after;
        count += got.placed;
        k += 1;
    }
    Counted {
        refusal: refusals::not_refused(),
        count,
        records,
    }
}

// Writes the tape of an accepted sheet from the start of the room on, and the masks of all steps: those past the last are empty.
fn write_tape(
    tape: &mut [i32],
    masks: &mut [u8],
    s: &[u8],
    parts: &[usize; PARTS],
    given: Given,
    memory: usize,
)
    requires outlined { Outlined s.now parts.now given × (memory ≤ memory_limit) × ((checked (sheet_of s.now) memory).refusal.number ≡ 0) }
    requires record_length_in_bounds { length (tape_of (sheet_of s.now) memory) * record_length ≤ length tape.old }
    requires mask_area_in_bounds { mask_area ≤ length masks.old }
    ensures tape_after { tape.new ≡ sets tape.old 0 (tape_numbers (tape_of (sheet_of s.now) memory)) }
    ensures masks_after { masks.new ≡ sets masks.old 0 (sheet_masks (sheet_of s.now) memory) }
{
    let mut entries = accesses::no_entries();
    let mut types = registers::empty_types();
    let mut at: usize = 0;
    let mut k: usize = 0;
    while k < given.steps {
        let step = sheet_parts::step_in(s, parts, given, k);
        at = write_turn(
            tape,
            masks,
            &mut entries,
            s,
            parts,
            types,
            memory,
            at,
            k,
            step,
        );
        let after = checks::step_types(types, step);
        types = after;
        k += 1;
    }
    masks::clear_masks(masks, given.steps, STEPS);
}

// Refusal 16: the records fit and, after them, the masks.
fn room_fits(edition: u8, room: usize, records: usize, area: usize) -> bool
    ensures { result ≡ both (records_fit edition room records) (leb mask_area area) }
{
    if !records::records_fit(edition, room, records) {
        return false;
    }
    MASK_AREA <= area
}

fn translate_refused(refusal: Refusal) -> TranslateAnswer
    ensures { result ≡ translate_answer refusal 0 0 }
{
    TranslateAnswer {
        refusal,
        count: 0,
        records: 0,
    }
}

// Translates a sheet for a memory of a length into the lent tape and mask area. Refused: both are unchanged.
pub fn translate(
    sheet: &[u8],
    memory_len: usize,
    tape: &mut [i32],
    masks: &mut [u8],
) -> TranslateAnswer
    ensures value { result ≡ translated sheet.now memory_len (length tape.old) (length masks.old) }
    ensures tape_after { tape.new ≡ translated_room sheet.now memory_len tape.old (length masks.old) }
    ensures masks_after { masks.new ≡ translated_masks sheet.now memory_len (length tape.old) masks.old }
{
    let mut parts = sheet_parts::no_parts();
    let read = checking::admit(sheet, &mut parts, memory_len);
    let unread = read.refusal;
    if 0 < unread.number {
        return translate_refused(unread);
    }
    let given = read.given;
    let found = count_tape(sheet, &parts, given, memory_len);
    let refused = found.refusal;
    if 0 < refused.number {
        return translate_refused(refused);
    }
    if !room_fits(given.edition, tape.len(), found.records, masks.len()) {
        return translate_refused(refusals::refusal_at(TAPE_TOO_LONG, 0, 0));
    }
    write_tape(tape, masks, sheet, &parts, given, memory_len);
    TranslateAnswer {
        refusal: refusals::not_refused(),
        count: found.count,
        records: found.records,
    }
}

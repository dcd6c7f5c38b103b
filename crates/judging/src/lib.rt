// Which records of a tape are out of range, over the registers' types and the memory's length: refusal 17.
#![tactic(auto)]

ghost use Rattle.std.specs.Prelude.{◌≡◌, true, ℕ, ◌+◌, ◌*◌, ◌<◌, ◌≤◌, ◌^◌, length};
ghost use Rattle.sheet.specs.Sizes.{matrix_places, record_places};
ghost use Rattle.registers.specs.Sized.{Sized, SizedType};
ghost use Rattle.sheet_reader.specs.Parts.{sheet_of, Outlined};
ghost use Rattle.records.specs.Records.{record_length};
ghost use Rattle.records.specs.Ranges.{Bytes, GoodInRange};
ghost use Rattle.records.specs.declared.Decoded.TheVariants.{Good};
ghost use Rattle.records.specs.declared.Record.TheVariants.{Whole};
ghost use Rattle.judging.specs.Records.{elements_ok, byte_inside, bytes_inside, bytes_record_ok, fill_record_ok, whole_clear, whole_record_ok, step_of, record_step, record_ok_with, record_types_with};
ghost use Rattle.judging.specs.Judging.{tape_record, decoded_step, decoded_ok_with, decoded_types_with, range_refusal, tape_refusal};
ghost use Rattle.judging.specs.Laws.Named.{Placed};

use checking::checks;
use records::{Decoded, Record};
use refusals::{RECORD_OUT_OF_RANGE, Refusal};
use registers::MatrixType;
use sheet::Step;
use sheet::sizes::REGISTERS;
use sheet_reader::{Given, PARTS};

fn elements_ok(t: MatrixType, first: usize, count: usize) -> bool
    requires { SizedType t × (first < 2 ^ 31) × (count < 2 ^ 31) }
    ensures { result ≡ elements_ok t first count }
{
    first + count <= usize::from(t.rows) * usize::from(t.columns)
}

#[tactic(auto, using(numbers::specs::Laws::Choice::both_and, crate::specs::Laws::Bytes::inside_natural, crate::specs::Laws::Elements::stride_small))]
fn byte_inside(size: usize, len: usize, byte: usize, up: usize, down: usize, i: usize) -> bool
    requires { (size ≤ 4) × (i < matrix_places) × Bytes byte up down }
    ensures { result ≡ byte_inside size len byte up down i }
{
    let above = byte + i * up;
    let below = i * down;
    below <= above && above - below + size <= len
}

fn bytes_inside(size: usize, len: usize, count: usize, byte: usize, up: usize, down: usize) -> bool
    requires { (size ≤ 4) × (count ≤ matrix_places) × Bytes byte up down }
    ensures { result ≡ bytes_inside size len count byte up down }
{
    (0..count).all(|i| byte_inside(size, len, byte, up, down, i))
}

// A take or a put of a register of type t.
#[tactic(auto, using(numbers::specs::Laws::Choice::both_and, crate::specs::Laws::Elements::elements_fit, kinds::specs::Laws::Widths::bytes_high), unfolding(crate::specs::Records::bytes_record_ok))]
fn bytes_record_ok(
    t: MatrixType,
    len: usize,
    first: usize,
    count: usize,
    byte: usize,
    up: usize,
    down: usize,
) -> bool
    requires { SizedType t × (first < 2 ^ 31) × (count < 2 ^ 31) × Bytes byte up down }
    ensures { result ≡ bytes_record_ok t len first count byte up down }
{
    !registers::is_empty(t)
        && elements_ok(t, first, count)
        && bytes_inside(kinds::bytes(t.kind), len, count, byte, up, down)
}

#[tactic(auto, using(numbers::specs::Laws::Choice::both_and), unfolding(crate::specs::Records::fill_record_ok))]
fn fill_record_ok(t: MatrixType, first: usize, count: usize, value: u32) -> bool
    requires { SizedType t × (first < 2 ^ 31) × (count < 2 ^ 31) }
    ensures { result ≡ fill_record_ok t first count value }
{
    !registers::is_empty(t) && elements_ok(t, first, count) && kinds::fits(t.kind, value)
}

// A whole step that would not be refused.
#[tactic(auto, using(whole_steps::proofs::Laws::Within::whole_ok_lem))]
fn whole_clear(edition: u8, types: [MatrixType; REGISTERS], len: usize, step: Step) -> bool
    requires { Placed edition step }
    ensures { result ≡ whole_clear edition types len step }
{
    match step {
        Step::Nothing | Step::Load { .. } | Step::Store { .. } => false,
        Step::Whole(whole) => {
            let stop = whole_steps::stops::whole_refusal(edition, types, len, whole);
            stop.number == 0
        }
    }
}

// Op 4.
#[tactic(auto, using(numbers::specs::Laws::Choice::both_and), unfolding(crate::specs::Records::whole_record_ok))]
fn whole_record_ok(
    edition: u8,
    steps: usize,
    types: [MatrixType; REGISTERS],
    len: usize,
    named: Step,
    step: usize,
) -> bool
    requires { Placed edition named }
    ensures { result ≡ whole_record_ok edition steps types len named step }
{
    step < steps && whole_clear(edition, types, len, named)
}

// The sheet is not passed for each record: its edition, its number of steps and the step that the record names stand for it.
fn record_ok(
    edition: u8,
    steps: usize,
    types: [MatrixType; REGISTERS],
    len: usize,
    named: Step,
    r: Record,
) -> bool
    requires { Placed edition named × Sized types × GoodInRange (Good r) }
    ensures { result ≡ record_ok_with edition steps types len named r }
{
    match r {
        Record::Copy { object, .. } => !registers::is_empty(registers::the_type(types, object)),
        Record::Take {
            register,
            first,
            count,
            byte,
            up,
            down,
        }
        | Record::Put {
            register,
            first,
            count,
            byte,
            up,
            down,
        } => {
            let t = registers::the_type(types, register);
            bytes_record_ok(t, len, first, count, byte, up, down)
        }
        Record::Fill {
            register,
            first,
            count,
            value,
        } => {
            let t = registers::the_type(types, register);
            fill_record_ok(t, first, count, value)
        }
        Record::Whole { step } => whole_record_ok(edition, steps, types, len, named, step),
    }
}

// The types that a record in range leaves.
fn record_types(types: [MatrixType; REGISTERS], named: Step, r: Record) -> [MatrixType; REGISTERS]
    requires { GoodInRange (Good r) × ((edition steps len : ℕ) × Placed edition named × (record_ok_with edition steps types len named r ≡ true)) }
    ensures { result ≡ record_types_with types named r }
{
    match r {
        Record::Copy { register, object } => {
            let t = registers::the_type(types, object);
            registers::with_type(types, register, t)
        }
        Record::Take { .. } | Record::Put { .. } | Record::Fill { .. } => types,
        Record::Whole { .. } => checks::step_types(types, named),
    }
}

fn decoded_ok(
    edition: u8,
    steps: usize,
    types: [MatrixType; REGISTERS],
    len: usize,
    named: Step,
    d: Decoded,
) -> bool
    requires { Placed edition named × Sized types × GoodInRange d }
    ensures { result ≡ decoded_ok_with edition steps types len named d }
{
    match d {
        Decoded::Good(r) => record_ok(edition, steps, types, len, named, r),
        Decoded::Bad => false,
    }
}

fn decoded_types(types: [MatrixType; REGISTERS], named: Step, d: Decoded) -> [MatrixType; REGISTERS]
    requires { GoodInRange d × ((edition steps len : ℕ) × Placed edition named × (decoded_ok_with edition steps types len named d ≡ true)) }
    ensures { result ≡ decoded_types_with types named d }
{
    match d {
        Decoded::Good(r) => record_types(types, named, r),
        Decoded::Bad => types,
    }
}

// Step number k of the sheet, from its bytes; nothing, where it has no such step.
#[tactic(auto, using(crate::specs::Laws::Named::step_taken, crate::specs::Laws::Named::step_none))]
fn step_of(s: &[u8], parts: &[usize; PARTS], given: Given, k: usize) -> Step
    requires { Outlined s.now parts.now given }
    ensures { result ≡ step_of (sheet_of s.now) k }
{
    if k < given.steps {
        sheet_parts::step_in(s, parts, given, k)
    } else {
        Step::Nothing
    }
}

// Only op 4 names a step.
fn record_step(s: &[u8], parts: &[usize; PARTS], given: Given, r: Record) -> Step
    requires { Outlined s.now parts.now given }
    ensures { result ≡ record_step (sheet_of s.now) r }
{
    match r {
        Record::Copy { .. } | Record::Take { .. } | Record::Put { .. } | Record::Fill { .. } => {
            Step::Nothing
        }
        Record::Whole { step } => step_of(s, parts, given, step),
    }
}

// The step of the sheet that a record names, or nothing.
pub fn step_named(s: &[u8], parts: &[usize; PARTS], given: Given, d: Decoded) -> Step
    requires { Outlined s.now parts.now given }
    ensures { result ≡ decoded_step (sheet_of s.now) d }
{
    match d {
        Decoded::Good(r) => record_step(s, parts, given, r),
        Decoded::Bad => Step::Nothing,
    }
}

// The first record out of range, from empty registers.
fn range(
    s: &[u8],
    parts: &[usize; PARTS],
    given: Given,
    tape: &[i32],
    records: usize,
    len: usize,
) -> Refusal
    requires { Outlined s.now parts.now given × (records ≤ record_places) × (records * record_length ≤ length tape.now) }
    ensures { result ≡ range_refusal records (sheet_of s.now) len (tape_record tape.now) }
{
    let mut types = registers::empty_types();
    for k in 0..records {
        let d = records::read_record(tape, k * records::NUMBERS);
        let named = step_named(s, parts, given, d);
        if !decoded_ok(given.edition, given.steps, types, len, named, d) {
            return refusals::refusal_at(RECORD_OUT_OF_RANGE, k, 0);
        }
        let after = decoded_types(types, named, d);
        types = after;
    }
    refusals::not_refused()
}

// A record count that does not fit has place 0.
#[tactic(auto, using(records::specs::Laws::Records::fit_few, records::specs::Laws::Records::fit_room, checking::specs::Laws::Met::the_edition), unfolding(crate::specs::Judging::tape_refusal, numbers::specs::Choice::pick))]
pub fn tape_refusal(
    s: &[u8],
    parts: &[usize; PARTS],
    given: Given,
    tape: &[i32],
    records: usize,
    len: usize,
) -> Refusal
    requires { Outlined s.now parts.now given }
    ensures { result ≡ tape_refusal (sheet_of s.now) tape.now records len }
{
    if !records::records_fit(given.edition, tape.len(), records) {
        return refusals::refusal_at(RECORD_OUT_OF_RANGE, 0, 0);
    }
    range(s, parts, given, tape, records, len)
}

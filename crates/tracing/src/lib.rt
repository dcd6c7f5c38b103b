// Writes the trace that a sheet makes: the check, the number of events, then their fields.
#![tactic(auto)]

ghost use Rattle.std.specs.Prelude.{◌≡◌, ◌+◌, ◌*◌, ◌<◌, ◌≤◌, length};
ghost use Rattle.std.proofs.lemmas.List.Edits.{sets};
ghost use Rattle.sheet.specs.Sizes.{step_places, matrix_places, memory_limit};
ghost use Rattle.sheet_reader.specs.Parts.{sheet_of, Outlined};
ghost use Rattle.checking.specs.Checking.{checked};
ghost use Rattle.traces.specs.Events.{event_length};
ghost use Rattle.traces.specs.Writing.{trace_bytes};
ghost use Rattle.expected.specs.Expected.{expected};
ghost use Rattle.expected.specs.Listed.{listed_events};
ghost use Rattle.tracing.specs.Tracing.{trace_answer, traced, traced_room};

use checking::{checks, turns};
use refusals::{ROOM_TOO_SHORT, Refusal};
use sheet::sizes::PLACES;
use sheet_reader::{Given, PARTS};
use traces::EVENT_LEN;

// A refusal with no byte, or how many bytes were written.
#[derive(Clone, Copy)]
pub struct TraceAnswer {
    pub refusal: Refusal,
    pub bytes: usize,
}

// How many events an accepted sheet has.
fn count_trace(s: &[u8], parts: &[usize; PARTS], given: Given, memory: usize) -> usize
    requires { Outlined s.now parts.now given × (memory ≤ memory_limit) × ((checked (sheet_of s.now) memory).refusal.number ≡ 0) }
    ensures { (result ≡ length (expected (sheet_of s.now) memory)) × (result ≤ step_places * matrix_places) }
{
    let mut types = registers::empty_types();
    let mut count: usize = 0;
    for k in 0..given.steps {
        let turn = turns::turn_at(s, parts, given, types, memory, k);
        let step = turn.step;
        let access = turn.access;
        count += expected::count_events(access);
        let after = checks::step_types(types, step);
        types = after;
    }
    count
}

// Writes the fields of a step's events from byte `at` on.
#[tactic(auto, unfolding(numbers::specs::Lists::each, traces::specs::Writing::trace_bytes, expected::specs::Listed::listed_events))]
fn write_events(out: &mut [u8], at: usize, entries: &[u32; PLACES], count: usize, step: usize)
    requires { (at + count * event_length ≤ length out.old) × (step < step_places) × (count ≤ matrix_places) }
    ensures { out.new ≡ sets out.old at (trace_bytes (listed_events step entries.now count)) }
{
    for k in 0..count {
        let e = expected::listed_event(entries, step, k);
        traces::put_event(out, at + k * EVENT_LEN, e);
    }
}

// The steps in order, from empty registers and the start of the room.
fn write_trace(out: &mut [u8], s: &[u8], parts: &[usize; PARTS], given: Given, memory: usize)
    requires outlined { Outlined s.now parts.now given × (memory ≤ memory_limit) × ((checked (sheet_of s.now) memory).refusal.number ≡ 0) }
    requires event_length_in_bounds { length (expected (sheet_of s.now) memory) * event_length ≤ length out.old }
    ensures { out.new ≡ sets out.old 0 (trace_bytes (expected (sheet_of s.now) memory)) }
{
    let mut entries = accesses::no_entries();
    let mut types = registers::empty_types();
    let mut at: usize = 0;
    for k in 0..given.steps {
        let turn = turns::turn_at(s, parts, given, types, memory, k);
        let step = turn.step;
        let access = turn.access;
        let o = accepted::survey_access(&mut entries, access);
        write_events(out, at, &entries, o.count, k);
        at += o.count * EVENT_LEN;
        let after = checks::step_types(types, step);
        types = after;
    }
}

fn trace_refused(refusal: Refusal) -> TraceAnswer
    ensures { result ≡ trace_answer refusal 0 }
{
    TraceAnswer { refusal, bytes: 0 }
}

// Writes what a card should record of a sheet in a memory of a length. Refused: the room is unchanged.
#[tactic(auto, using(crate::proofs::Laws::refused_answer_lem, crate::proofs::Laws::refused_room, crate::proofs::Laws::short_answer, crate::proofs::Laws::short_room))]
pub fn trace(sheet: &[u8], memory_len: usize, out: &mut [u8]) -> TraceAnswer
    ensures value { result ≡ traced sheet.now memory_len (length out.old) }
    ensures out_after { out.new ≡ traced_room sheet.now memory_len out.old }
{
    let mut parts = sheet_parts::no_parts();
    let judged = checking::judge(sheet, &mut parts, memory_len);
    let refused = judged.answer.refusal;
    if 0 < refused.number {
        return trace_refused(refused);
    }
    let bytes = count_trace(sheet, &parts, judged.given, memory_len) * EVENT_LEN;
    if out.len() < bytes {
        return trace_refused(refusals::refusal_at(ROOM_TOO_SHORT, 0, 0));
    }
    write_trace(out, sheet, &parts, judged.given, memory_len);
    TraceAnswer {
        refusal: refusals::not_refused(),
        bytes,
    }
}

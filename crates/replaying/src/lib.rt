// Replays a card's address trace against a sheet and a memory's length, without a memory.
#![tactic(auto)]

ghost use Rattle.std.specs.Prelude.{◌≡◌, ◌+◌, ◌*◌, ◌<◌, ◌≤◌};
ghost use Rattle.sheet.specs.Sizes.{step_places, matrix_places, memory_limit};
ghost use Rattle.sheet_reader.specs.Parts.{sheet_of, Outlined};
ghost use Rattle.checking.specs.Checking.{checked};
ghost use Rattle.traces.specs.Numbered.{events_in};
ghost use Rattle.expected.specs.Expected.{expected};
ghost use Rattle.expected.specs.Listed.{listed_events};
ghost use Rattle.replaying.specs.Verdicts.{verdict_at};
ghost use Rattle.replaying.specs.Replaying.{replay_refused, replayed};
ghost use Rattle.replaying.specs.Matching.{matched, goes_on, match_one, match_all};

use checking::{checks, turns};
use refusals::Refusal;
use sheet::sizes::PLACES;
use sheet_reader::{Given, PARTS};
use traces::{EVENT_LEN, Event};

#[derive(Clone, Copy)]
pub enum Verdict {
    Agrees,
    // At the first index where the lists differ, one of them ending there included.
    Differs(usize),
}

// A refusal with a difference at 0 and a count of 0, or the verdict and how many outcomes the sheet's loads and stores have.
#[derive(Clone, Copy)]
pub struct ReplayAnswer {
    pub refusal: Refusal,
    pub verdict: Verdict,
    pub count: usize,
}

// How many events of the sheet came, and how many of them the trace has from its beginning on.
#[derive(Clone, Copy)]
pub struct Matched {
    pub index: usize,
    pub count: usize,
}

// What the check of a sheet refuses, and the events that came before.
#[derive(Clone, Copy)]
pub struct Compared {
    pub refusal: Refusal,
    pub events: Matched,
}

// The trace goes on with an event: all before are in it, and its next is this one.
fn goes_on(trace: &[u8], m: Matched, e: Event) -> bool
    ensures { result ≡ goes_on (events_in trace.now) m e }
{
    let index = m.index;
    if index != m.count {
        return false;
    }
    if trace.len() / EVENT_LEN <= index {
        return false;
    }
    traces::same_event(e, traces::event_in(trace, index))
}

fn match_event(trace: &[u8], m: Matched, e: Event) -> Matched
    requires { (m.index ≤ m.count) × (m.count < step_places * matrix_places) }
    ensures { result ≡ match_one (events_in trace.now) m e }
{
    if goes_on(trace, m, e) {
        return Matched {
            index: m.index + 1,
            count: m.count + 1,
        };
    }
    Matched {
        index: m.index,
        count: m.count + 1,
    }
}

// The events of a step, from the entries of its elements.
fn match_events(
    trace: &[u8],
    before: Matched,
    entries: &[u32; PLACES],
    count: usize,
    step: usize,
) -> Matched
    requires { (before.index ≤ before.count) × (before.count + count ≤ step_places * matrix_places) × (step < step_places) × (count ≤ matrix_places) }
    ensures { result ≡ match_all (events_in trace.now) before (listed_events step entries.now count) }
{
    let mut m = before;
    let mut k: usize = 0;
    while k < count {
        let e = expected::listed_event(entries, step, k);
        m = match_event(trace, m, e);
        k += 1;
    }
    m
}

// The steps in order, from empty registers: each is checked, and its events are matched with what its check left in the entries, so that no
// element is located twice.
fn match_sheet(
    trace: &[u8],
    s: &[u8],
    parts: &[usize; PARTS],
    given: Given,
    memory: usize,
) -> Compared
    requires { Outlined s.now parts.now given × (memory ≤ memory_limit) }
    ensures refusal_value { result.refusal ≡ (checked (sheet_of s.now) memory).refusal }
    ensures events_value { result.refusal.number ≡ 0 → result.events ≡ match_all (events_in trace.now) (matched 0 0) (expected (sheet_of s.now) memory) }
{
    let mut entries = accesses::no_entries();
    let mut types = registers::empty_types();
    let mut m = Matched { index: 0, count: 0 };
    let mut k: usize = 0;
    while k < given.steps {
        let turn = turns::turn_at(s, parts, given, types, memory, k);
        let step = turn.step;
        let access = turn.access;
        let got = checks::check_step(&mut entries, given.edition, types, memory, step, access);
        let stop = got.stop;
        if 0 < stop.number {
            return Compared {
                refusal: refusals::refusal_at(stop.number, k, stop.element),
                events: m,
            };
        }
        let count = expected::count_events(access);
        m = match_events(trace, m, &entries, count, k);
        let after = got.types;
        types = after;
        k += 1;
    }
    Compared {
        refusal: refusals::not_refused(),
        events: m,
    }
}

// The verdict on a trace of so many events.
fn verdict_at(m: Matched, events: usize) -> Verdict
    ensures { result ≡ verdict_at m.index m.count events }
{
    if m.index != m.count {
        return Verdict::Differs(m.index);
    }
    if m.index != events {
        return Verdict::Differs(m.index);
    }
    Verdict::Agrees
}

fn replay_refused(refusal: Refusal) -> ReplayAnswer
    ensures { result ≡ replay_refused refusal }
{
    ReplayAnswer {
        refusal,
        verdict: Verdict::Differs(0),
        count: 0,
    }
}

// Agrees exactly when the trace is the complete list of the outcomes of the sheet's loads and stores. Nothing of the trace's length is
// kept; it is judged to its end before the comparison counts.
pub fn replay(sheet: &[u8], memory_len: usize, trace: &[u8]) -> ReplayAnswer
    ensures { result ≡ replayed sheet.now memory_len trace.now }
{
    let mut parts = sheet_parts::no_parts();
    let read = checking::admit(sheet, &mut parts, memory_len);
    let unread = read.refusal;
    if 0 < unread.number {
        return replay_refused(unread);
    }
    let given = read.given;
    let found = match_sheet(trace, sheet, &parts, given, memory_len);
    let refused = found.refusal;
    if 0 < refused.number {
        return replay_refused(refused);
    }
    let misread = traces::judge_trace(trace);
    if 0 < misread.number {
        return replay_refused(misread);
    }
    let m = found.events;
    ReplayAnswer {
        refusal: refusals::not_refused(),
        verdict: verdict_at(m, trace.len() / EVENT_LEN),
        count: m.count,
    }
}

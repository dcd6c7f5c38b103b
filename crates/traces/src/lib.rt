// A card's address trace in tagged fields: one field for each element of a load or a store.
#![tactic(auto)]

ghost use Rattle.std.specs.Prelude.{◌≡◌, ◌+◌, ◌/◌, ◌≤◌, ◌<◌, length};
ghost use Rattle.std.proofs.lemmas.List.Edits.{sets};
ghost use Rattle.traces.specs.Events.{content_length, event_length, event_at, event_ok, is_after, same_event};
ghost use Rattle.traces.specs.Reading.{field_refusal, read_trace};
ghost use Rattle.traces.specs.Writing.{event_bytes};
ghost use Rattle.traces.specs.Numbered.{event_in};

use fields::{Cursor, Field, HEAD, writing};
use refusals::{BEYOND_SIZES, CUT_SHORT, NOT_AFTER, Refusal, UNKNOWN_TAG, WRONG_LENGTH};

const EVENT_TAG: u8 = 0x30;

// The bytes of an event's field without its head, and with it.
const CONTENT_LEN: usize = 9;

pub const EVENT_LEN: usize = 12;

// Sorts of an event.
pub const SKIPPED: u8 = 0;

pub const FILLED: u8 = 1;

pub const DISCARDED: u8 = 2;

pub const BYTE: u8 = 3;

// What a card did with one element. The byte is 0 unless the sort is BYTE.
#[derive(Clone, Copy)]
pub struct Event {
    pub step: u16,
    pub element: u16,
    pub sort: u8,
    pub byte: u32,
}

// The event of the field before.
#[derive(Clone, Copy)]
pub enum Previous {
    None,
    Some(Event),
}

// The event that a field's content says.
fn event_at(s: &[u8], p: usize) -> Event
    requires { p + content_length ≤ length s.now }
    ensures { result ≡ event_at s.now p }
{
    Event {
        step: numbers::u16_at(s, p),
        element: numbers::u16_at(s, p + 2),
        sort: s[p + 4],
        byte: numbers::u32_at(s, p + 5),
    }
}

fn event_ok(e: Event) -> bool
    ensures { result ≡ event_ok e }
{
    if e.sort == BYTE {
        return true;
    }
    if BYTE < e.sort {
        return false;
    }
    e.byte == 0
}

// By step, then by element.
fn is_after(previous: Previous, e: Event) -> bool
    ensures { result ≡ is_after previous e }
{
    match previous {
        Previous::None => true,
        Previous::Some(before) => {
            if e.step == before.step {
                before.element < e.element
            } else {
                before.step < e.step
            }
        }
    }
}

pub fn same_event(x: Event, y: Event) -> bool
    ensures { result ≡ same_event x y }
{
    if x.step != y.step {
        return false;
    }
    if x.element != y.element {
        return false;
    }
    if x.sort != y.sort {
        return false;
    }
    x.byte == y.byte
}

// The number of a field's refusal, 0 for none.
fn field_refusal(s: &[u8], tag: u8, start: usize, len: usize, previous: Previous) -> u8
    requires { start + len ≤ length s.now }
    ensures { result ≡ field_refusal s.now tag start len previous }
{
    if tag != EVENT_TAG {
        return UNKNOWN_TAG;
    }
    if len != CONTENT_LEN {
        return WRONG_LENGTH;
    }
    let e = event_at(s, start);
    if !event_ok(e) {
        return BEYOND_SIZES;
    }
    if !is_after(previous, e) {
        return NOT_AFTER;
    }
    0
}

// The refusal of the first field that is refused. A trace is judged to its end before it is compared.
pub fn judge_trace(s: &[u8]) -> Refusal
    ensures { result ≡ (read_trace s.now).refusal }
{
    let mut c = Cursor { at: 0 };
    let mut previous = Previous::None;
    while c.at < s.len() {
        let at = c.at;
        let Field::Whole {
            tag,
            start,
            len,
            next,
        } = c.field(s)
        else {
            return refusals::refusal_at(CUT_SHORT, at, 0);
        };
        let number = field_refusal(s, tag, start, len, previous);
        if 0 < number {
            return refusals::refusal_at(number, at, 0);
        }
        previous = Previous::Some(event_at(s, start));
        c = next;
    }
    refusals::not_refused()
}

// Event i of a trace that is not refused, each field of which has the same length.
pub fn event_in(s: &[u8], i: usize) -> Event
    requires { i < length s.now / event_length }
    ensures { result ≡ event_in s.now i }
{
    event_at(s, i * EVENT_LEN + HEAD)
}

// Writes an event's field from byte `at` on.
pub fn put_event(out: &mut [u8], at: usize, e: Event)
    requires { at + event_length ≤ length out.old }
    ensures { out.new ≡ sets out.old at (event_bytes e) }
{
    writing::put_head(out, at, EVENT_TAG, CONTENT_LEN as u16);
    writing::put_u16s(out, at + HEAD, e.step, e.element);
    writing::put_byte(out, at + 7, e.sort);
    numbers::put_u32(out, at + 8, e.byte);
}

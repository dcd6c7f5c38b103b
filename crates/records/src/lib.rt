// The records of a tape, and how their six numbers are read (document 01, "The tape").
#![tactic(auto)]

ghost use Rattle.std.specs.Prelude.{◌≡◌, true, ◌+◌, ◌<◌, ◌≤◌, length};
ghost use Rattle.sheet.specs.Sizes.{register_count};
ghost use Rattle.signed.specs.Numbers.{number, rise};
ghost use Rattle.records.specs.Records.{record_length, register_in_range, moved, fields, copy_in_range, bytes_in_range, fill_in_range, whole_in_range, copy_of, moved_of, fill_of, whole_of, record_at};
ghost use Rattle.records.specs.Ranges.{GoodInRange};
ghost use Rattle.records.specs.Room.{records_fit};

use sheet::editions;
use sheet::sizes::REGISTERS;

// The byte step of a take or a put is up - down, of which one is 0.
#[derive(Clone, Copy)]
pub enum Record {
    Copy {
        register: u8,
        object: u8,
    },
    Take {
        register: u8,
        first: usize,
        count: usize,
        byte: usize,
        up: usize,
        down: usize,
    },
    Put {
        register: u8,
        first: usize,
        count: usize,
        byte: usize,
        up: usize,
        down: usize,
    },
    Fill {
        register: u8,
        first: usize,
        count: usize,
        value: u32,
    },
    Whole {
        step: usize,
    },
}

// What six numbers say.
#[derive(Clone, Copy)]
pub enum Decoded {
    Good(Record),
    Bad,
}

// Numbers a record.
pub const NUMBERS: usize = 6;

// The greatest register and the greatest byte step.
const REGISTER: usize = REGISTERS - 1;

const STEP: usize = 65_535;

// The limit first: past it the numbers are not counted.
#[tactic(auto, using(numbers::specs::Laws::Choice::both_and, sheet::specs::Laws::Editions::limits_records), unfolding(crate::specs::Room::records_fit))]
pub fn records_fit(edition: u8, room: usize, records: usize) -> bool
    ensures { result ≡ records_fit edition room records }
{
    records <= editions::limits(edition).records && records * NUMBERS <= room
}

#[tactic(auto, using(numbers::specs::Laws::Choice::both_and), unfolding(crate::specs::Records::copy_in_range))]
fn copy_in_range(tape: &[i32], at: usize) -> bool
    requires { at + record_length ≤ length tape.now }
    ensures { result ≡ fields copy_in_range tape.now at }
{
    signed::spans(tape, at + 1, 0, REGISTER)
        && signed::spans(tape, at + 2, 0, REGISTER)
        && signed::is(tape, at + 3, 0)
        && signed::is(tape, at + 4, 0)
        && signed::is(tape, at + 5, 0)
}

#[tactic(auto, using(numbers::specs::Laws::Choice::both_and), unfolding(crate::specs::Records::bytes_in_range))]
fn bytes_in_range(tape: &[i32], at: usize) -> bool
    requires { at + record_length ≤ length tape.now }
    ensures { result ≡ fields bytes_in_range tape.now at }
{
    signed::spans(tape, at + 1, 0, REGISTER)
        && signed::at_least(tape, at + 2, 0)
        && signed::at_least(tape, at + 3, 1)
        && signed::at_least(tape, at + 4, 0)
        && signed::spans(tape, at + 5, STEP, STEP)
}

#[tactic(auto, using(numbers::specs::Laws::Choice::both_and), unfolding(crate::specs::Records::fill_in_range))]
fn fill_in_range(tape: &[i32], at: usize) -> bool
    requires { at + record_length ≤ length tape.now }
    ensures { result ≡ fields fill_in_range tape.now at }
{
    signed::spans(tape, at + 1, 0, REGISTER)
        && signed::at_least(tape, at + 2, 0)
        && signed::at_least(tape, at + 3, 1)
        && signed::is(tape, at + 5, 0)
}

#[tactic(auto, using(numbers::specs::Laws::Choice::both_and), unfolding(crate::specs::Records::whole_in_range))]
fn whole_in_range(tape: &[i32], at: usize) -> bool
    requires { at + record_length ≤ length tape.now }
    ensures { result ≡ fields whole_in_range tape.now at }
{
    signed::at_least(tape, at + 1, 0)
        && signed::is(tape, at + 2, 0)
        && signed::is(tape, at + 3, 0)
        && signed::is(tape, at + 4, 0)
        && signed::is(tape, at + 5, 0)
}

#[tactic(auto, using(signed::specs::Laws::Numbers::spans_rise))]
fn register_at(tape: &[i32], at: usize) -> u8
    requires { (at < length tape.now) × (register_in_range (number tape.now at) ≡ true) }
    ensures { (result ≡ rise (number tape.now at)) × (result < register_count) }
{
    signed::rise(tape, at) as u8
}

#[tactic(auto, using(crate::proofs::Laws::copy_register, crate::proofs::Laws::copy_object), unfolding(crate::specs::Records::copy_of, numbers::specs::Choice::pick))]
fn copy_record(tape: &[i32], at: usize) -> Decoded
    requires { at + record_length ≤ length tape.now }
    ensures { (result ≡ fields copy_of tape.now at) × GoodInRange result }
{
    if !copy_in_range(tape, at) {
        return Decoded::Bad;
    }
    Decoded::Good(Record::Copy {
        register: register_at(tape, at + 1),
        object: register_at(tape, at + 2),
    })
}

// A take, or a put.
#[tactic(auto, unfolding(crate::specs::Records::moved))]
pub fn moved(
    take: bool,
    register: u8,
    first: usize,
    count: usize,
    byte: usize,
    up: usize,
    down: usize,
) -> Record
    ensures { result ≡ moved take register first count byte up down }
{
    if take {
        Record::Take {
            register,
            first,
            count,
            byte,
            up,
            down,
        }
    } else {
        Record::Put {
            register,
            first,
            count,
            byte,
            up,
            down,
        }
    }
}

#[tactic(auto, using(crate::proofs::Laws::bytes_register), unfolding(crate::specs::Records::moved_of, numbers::specs::Choice::pick))]
fn bytes_record(tape: &[i32], at: usize, take: bool) -> Decoded
    requires { at + record_length ≤ length tape.now }
    ensures { (result ≡ fields (moved_of take) tape.now at) × GoodInRange result }
{
    if !bytes_in_range(tape, at) {
        return Decoded::Bad;
    }
    let register = register_at(tape, at + 1);
    let first = signed::rise(tape, at + 2);
    let count = signed::rise(tape, at + 3);
    let byte = signed::rise(tape, at + 4);
    let up = signed::rise(tape, at + 5);
    let down = signed::fall(tape, at + 5);
    Decoded::Good(moved(take, register, first, count, byte, up, down))
}

#[tactic(auto, using(crate::proofs::Laws::fill_register), unfolding(crate::specs::Records::fill_of, numbers::specs::Choice::pick))]
fn fill_record(tape: &[i32], at: usize) -> Decoded
    requires { at + record_length ≤ length tape.now }
    ensures { (result ≡ fields fill_of tape.now at) × GoodInRange result }
{
    if !fill_in_range(tape, at) {
        return Decoded::Bad;
    }
    Decoded::Good(Record::Fill {
        register: register_at(tape, at + 1),
        first: signed::rise(tape, at + 2),
        count: signed::rise(tape, at + 3),
        value: signed::bits(tape, at + 4),
    })
}

#[tactic(auto, unfolding(crate::specs::Records::whole_of, numbers::specs::Choice::pick))]
fn whole_record(tape: &[i32], at: usize) -> Decoded
    requires { at + record_length ≤ length tape.now }
    ensures { (result ≡ fields whole_of tape.now at) × GoodInRange result }
{
    if !whole_in_range(tape, at) {
        return Decoded::Bad;
    }
    Decoded::Good(Record::Whole {
        step: signed::rise(tape, at + 1),
    })
}

// The record whose numbers begin at a place of a tape.
#[tactic(auto, unfolding(crate::specs::Records::record_of, signed::specs::Numbers::is, numbers::specs::Choice::pick))]
pub fn read_record(tape: &[i32], at: usize) -> Decoded
    requires { at + record_length ≤ length tape.now }
    ensures { (result ≡ record_at tape.now at) × GoodInRange result }
{
    // Each arm returns by itself: where the match is the answer, its arms are joined and a record takes some 35 instructions more.
    match tape[at] {
        0 => return copy_record(tape, at),
        1 => return bytes_record(tape, at, true),
        2 => return bytes_record(tape, at, false),
        3 => return fill_record(tape, at),
        4 => return whole_record(tape, at),
        _ => {}
    }
    Decoded::Bad
}

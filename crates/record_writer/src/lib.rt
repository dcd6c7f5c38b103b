// Writes a record of a tape: its six numbers.
#![tactic(auto)]

ghost use Rattle.std.specs.Prelude.{◌≡◌, [], ◌∷◌, ◌+◌, ◌<◌, ◌≤◌, ◌^◌, length, pos};
ghost use Rattle.std.proofs.lemmas.List.Edits.{sets};
ghost use Rattle.records.specs.Records.{record_length, bytes_numbers, record_numbers};
ghost use Rattle.records.specs.Ranges.{Elements, Bytes, InRange};

use records::Record;

// The op and the three numbers after it.
fn put_four(tape: &mut [i32], at: usize, op: usize, a: usize, b: usize, c: usize)
    requires record_length_in_bounds { at + record_length ≤ length tape.old }
    requires op_bound { (op < 2 ^ 31) × (a < 2 ^ 31) × (b < 2 ^ 31) × (c < 2 ^ 31) }
    ensures { tape.new ≡ sets tape.old at (pos op ∷ pos a ∷ pos b ∷ pos c ∷ []) }
{
    signed::put_natural(tape, at, op);
    signed::put_natural(tape, at + 1, a);
    signed::put_natural(tape, at + 2, b);
    signed::put_natural(tape, at + 3, c);
}

// A record of naturals, the last two of them unused.
fn put_plain(tape: &mut [i32], at: usize, op: usize, a: usize, b: usize)
    requires record_length_in_bounds { at + record_length ≤ length tape.old }
    requires op_bound { (op < 2 ^ 31) × (a < 2 ^ 31) × (b < 2 ^ 31) }
    ensures { tape.new ≡ sets tape.old at (pos op ∷ pos a ∷ pos b ∷ pos 0 ∷ pos 0 ∷ pos 0 ∷ []) }
{
    put_four(tape, at, op, a, b, 0);
    signed::put_natural(tape, at + 4, 0);
    signed::put_natural(tape, at + 5, 0);
}

fn put_bytes(
    tape: &mut [i32],
    at: usize,
    op: usize,
    register: u8,
    first: usize,
    count: usize,
    byte: usize,
    up: usize,
    down: usize,
)
    requires record_length_in_bounds { at + record_length ≤ length tape.old }
    requires op_bound { (op < 3) × Elements register first count × Bytes byte up down }
    ensures { tape.new ≡ sets tape.old at (bytes_numbers op register first count byte up down) }
{
    put_four(tape, at, op, usize::from(register), first, count);
    signed::put_natural(tape, at + 4, byte);
    signed::put_difference(tape, at + 5, up, down);
}

fn put_fill(tape: &mut [i32], at: usize, register: u8, first: usize, count: usize, value: u32)
    requires record_length_in_bounds { at + record_length ≤ length tape.old }
    requires elements { Elements register first count }
    ensures { tape.new ≡ sets tape.old at (record_numbers (Record.Fill register first count value)) }
{
    put_four(tape, at, 3, usize::from(register), first, count);
    signed::put_bits(tape, at + 4, value);
    signed::put_natural(tape, at + 5, 0);
}

pub fn put_record(tape: &mut [i32], at: usize, r: Record)
    requires record_length_in_bounds { at + record_length ≤ length tape.old }
    requires in_range { InRange r }
    ensures { tape.new ≡ sets tape.old at (record_numbers r) }
{
    match r {
        Record::Copy { register, object } => {
            put_plain(tape, at, 0, usize::from(register), usize::from(object));
        }
        Record::Take {
            register,
            first,
            count,
            byte,
            up,
            down,
        } => {
            put_bytes(tape, at, 1, register, first, count, byte, up, down);
        }
        Record::Put {
            register,
            first,
            count,
            byte,
            up,
            down,
        } => {
            put_bytes(tape, at, 2, register, first, count, byte, up, down);
        }
        Record::Fill {
            register,
            first,
            count,
            value,
        } => {
            put_fill(tape, at, register, first, count, value);
        }
        Record::Whole { step } => {
            put_plain(tape, at, 4, step, 0);
        }
    }
}

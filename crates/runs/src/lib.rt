// The longest even runs of a load or a store: its elements' outcomes are joined one after the other.
#![tactic(auto)]

ghost use Rattle.std.specs.Prelude.{◌≡◌, ◌+◌, ◌*◌, ◌<◌, ◌≤◌, length};
ghost use Rattle.std.proofs.lemmas.List.Edits.{sets};
ghost use Rattle.sheet.specs.Sizes.{matrix_places, memory_limit};
ghost use Rattle.records.specs.Records.{record_length, tape_numbers};
ghost use Rattle.records.specs.Ranges.{AllInRange};
ghost use Rattle.runs.specs.Runs.{lone, meet_byte, meet_fill, next, emit, run_records};
ghost use Rattle.runs.specs.Ranges.{Fitting, Steady, SmallRun};

use outcomes::Outcome;
use records::Record;

// A run that is open or done, or none. The byte step is up - down, of which one is 0.
#[derive(Clone, Copy)]
pub enum Run {
    Idle,
    Bytes {
        first: usize,
        count: usize,
        byte: usize,
        up: usize,
        down: usize,
    },
    Fills {
        first: usize,
        count: usize,
        value: u32,
    },
}

// What one more element does: the run that it ends, if any, and the run that is then open.
#[derive(Clone, Copy)]
pub struct Progress {
    pub done: Run,
    pub held: Run,
}

// A run of one has step 0.
fn lone(k: usize, b: usize) -> Run
    ensures { result ≡ lone k b }
{
    Run::Bytes {
        first: k,
        count: 1,
        byte: b,
        up: 0,
        down: 0,
    }
}

fn sole(k: usize, v: u32) -> Run
    ensures { result ≡ Run.Fills k 1 v }
{
    Run::Fills {
        first: k,
        count: 1,
        value: v,
    }
}

// A run of bytes, and the next element's byte.
#[tactic(auto, unfolding(crate::specs::Runs::meet_byte, numbers::specs::Choice::pick))]
fn meet_byte(
    first: usize,
    count: usize,
    byte: usize,
    up: usize,
    down: usize,
    k: usize,
    b: usize,
) -> Progress
    requires steady { Steady k first count byte up down }
    requires k_lt_matrix_places { (k < matrix_places) × (b < memory_limit) }
    ensures { result ≡ meet_byte first count byte up down k b }
{
    if count == 1 {
        Progress {
            done: Run::Idle,
            held: Run::Bytes {
                first,
                count: 2,
                byte,
                up: b.saturating_sub(byte),
                down: byte.saturating_sub(b),
            },
        }
    } else if b + count * down == byte + count * up {
        Progress {
            done: Run::Idle,
            held: Run::Bytes {
                first,
                count: count + 1,
                byte,
                up,
                down,
            },
        }
    } else {
        Progress {
            done: Run::Bytes {
                first,
                count,
                byte,
                up,
                down,
            },
            held: lone(k, b),
        }
    }
}

// A run of fills, and the next element's fill.
#[tactic(auto, unfolding(crate::specs::Runs::meet_fill, numbers::specs::Choice::pick))]
fn meet_fill(first: usize, count: usize, value: u32, k: usize, v: u32) -> Progress
    requires { (first + count ≡ k) × (k < matrix_places) }
    ensures { result ≡ meet_fill first count value k v }
{
    if v == value {
        Progress {
            done: Run::Idle,
            held: Run::Fills {
                first,
                count: count + 1,
                value,
            },
        }
    } else {
        Progress {
            done: Run::Fills {
                first,
                count,
                value,
            },
            held: sole(k, v),
        }
    }
}

// The open run and the outcome of the next element k. An element that writes nothing ends the run.
#[tactic(auto, unfolding(crate::specs::Runs::next))]
pub fn next_run(r: Run, k: usize, o: Outcome) -> Progress
    requires small_run { SmallRun k r }
    requires k_lt_matrix_places { (k < matrix_places) × Fitting o }
    ensures { result ≡ next r k o }
{
    match o {
        Outcome::Skipped | Outcome::Discarded => Progress {
            done: r,
            held: Run::Idle,
        },
        Outcome::Placed(b) => match r {
            Run::Bytes {
                first,
                count,
                byte,
                up,
                down,
            } => meet_byte(first, count, byte, up, down, k, b),
            Run::Idle | Run::Fills { .. } => Progress {
                done: r,
                held: lone(k, b),
            },
        },
        Outcome::Filled(v) => match r {
            Run::Fills {
                first,
                count,
                value,
            } => meet_fill(first, count, value, k, v),
            Run::Idle | Run::Bytes { .. } => Progress {
                done: r,
                held: sole(k, v),
            },
        },
    }
}

// How many records a run writes.
pub fn records_of(r: Run) -> usize
    ensures { result ≡ length (emit r) }
{
    match r {
        Run::Idle => 0,
        Run::Bytes { .. } | Run::Fills { .. } => 1,
    }
}

// Writes the record of a run as record `at` of a tape: the next record's number.
pub fn write_run(tape: &mut [i32], at: usize, load: bool, register: u8, r: Run) -> usize
    requires record_length_in_bounds { (at + length (emit r)) * record_length ≤ length tape.old }
    requires all_in_range { AllInRange (run_records load register r) }
    ensures { (result ≡ at + length (emit r)) × (tape.new ≡ sets tape.old (at * record_length) (tape_numbers (run_records load register r))) }
{
    let record = match r {
        Run::Idle => return at,
        Run::Bytes {
            first,
            count,
            byte,
            up,
            down,
        } => records::moved(load, register, first, count, byte, up, down),
        Run::Fills {
            first,
            count,
            value,
        } => Record::Fill {
            register,
            first,
            count,
            value,
        },
    };
    record_writer::put_record(tape, at * records::NUMBERS, record);
    at + 1
}

// Prints the tape of the sheet on standard input for a memory of 65,536: one record a line, six decimal numbers with single blanks. A refusal is one
// line of three numbers, its number and its place. Where the input cannot be read, one line on standard error says so, and the exit status is 1.
#![tactic(auto)]

ghost use Rattle.std.specs.Prelude.{◌<◌, ◌≤◌, length, IfOk};
ghost use Rattle.sheet.specs.Sizes.{record_places};

use masks::MASK_AREA;
use records::NUMBERS;
use sheet::sizes::RECORDS;
use std::io;
use std::io::Read;
use std::process::ExitCode;
use translating::TranslateAnswer;

const MEMORY: usize = 65_536;

fn print_number(rt: &impl Print, tape: &[i32], at: usize, after: char) -> io::Result<()> {
    if let Some(x) = tape.get(at) {
        print!(rt; "{x}{after}")?;
    }
    Ok(())
}

fn print_record(rt: &impl Print, tape: &[i32], at: usize) -> io::Result<()>
    requires { at < 65536 }
{
    print_number(rt, tape, at, ' ')?;
    print_number(rt, tape, at + 1, ' ')?;
    print_number(rt, tape, at + 2, ' ')?;
    print_number(rt, tape, at + 3, ' ')?;
    print_number(rt, tape, at + 4, ' ')?;
    print_number(rt, tape, at + 5, '\n')
}

fn print_records(rt: &impl Print, tape: &[i32], records: usize) -> io::Result<()>
    requires { records ≤ record_places }
{
    for k in 0..records {
        print_record(rt, tape, k * NUMBERS)?;
    }
    Ok(())
}

fn print_refusal(rt: &impl Print, number: u8, place: usize, element: usize) -> io::Result<()> {
    println!(rt; "{number} {place} {element}")
}

// The refusal, or else the tape.
fn print(rt: &impl Print, tape: &[i32], answer: TranslateAnswer) -> io::Result<()> {
    let refusal = answer.refusal;
    if 0 < refusal.number {
        return print_refusal(rt, refusal.number, refusal.place, refusal.element);
    }
    if answer.records <= RECORDS {
        print_records(rt, tape, answer.records)?;
    }
    Ok(())
}

fn unreadable(rt: &impl Eprint) -> io::Result<ExitCode> {
    eprintln!(rt; "print_tape: standard input cannot be read")?;
    Ok(ExitCode::FAILURE)
}

// Fills the buffer as far as the input goes: how many bytes came.
fn read_full<R: Read>(input: &mut R, buffer: &mut [u8]) -> io::Result<usize>
    ensures { IfOk result (λ n. n ≤ length buffer.new) }
{
    let mut n = 0;
    while n < buffer.len() {
        let more = input.read(&mut buffer[n..])?;
        if more == 0 {
            return Ok(n);
        }
        n += more;
    }
    Ok(n)
}

// The longest accepted sheet has 1,096 bytes and the longest field 65,538: what is past both cannot change the answer (theorem
// `prefix_reads` of the crate round_trip).
const ENOUGH: usize = 1_096 + 65_538;

fn main(rt: HostRuntime) -> io::Result<ExitCode> {
    let mut input = [0u8; ENOUGH];
    let Ok(n) = read_full(&mut rt.reader(), &mut input) else {
        return unreadable(&rt);
    };
    let mut tape = [0i32; RECORDS * NUMBERS];
    let mut masks = [0u8; MASK_AREA];
    let answer = translating::translate(&input[..n], MEMORY, &mut tape, &mut masks);
    print(&rt, &tape, answer)?;
    Ok(ExitCode::SUCCESS)
}

// The check of a sheet, over types and a memory's length: it refuses or accepts, and changes nothing.
#![tactic(auto)]

pub mod checks;
pub mod turns;

ghost use Rattle.std.specs.Prelude.{◌≡◌, length};
ghost use Rattle.sheet_reader.specs.Parts.{part_places, Outlined};
ghost use Rattle.checking.specs.Checking.{admitted, checked_sheet};

use refusals::{MEMORY_TOO_LARGE, Refusal, Stop};
use registers::MatrixType;
use sheet::sizes::{MEMORY_LIMIT, REGISTERS};
use sheet_reader::{Given, Outline, PARTS};

// What the check of a step tells: its refusal, or the types that it leaves and how many of its elements have a byte.
#[derive(Clone, Copy)]
pub struct StepCheck {
    pub stop: Stop,
    pub types: [MatrixType; REGISTERS],
    pub placed: usize,
}

// The answer of a check: a refusal, or how many elements of loads and stores have a byte.
#[derive(Clone, Copy)]
pub struct CheckAnswer {
    pub refusal: Refusal,
    pub count: usize,
}

// A sheet read and checked: the check's answer, and what the sheet has.
#[derive(Clone, Copy)]
pub struct Judged {
    pub answer: CheckAnswer,
    pub given: Given,
}

// 18, then the sheet's reading: what every job on a sheet for a memory begins with. The lent places are told where the sheet's parts stand.
pub fn admit(sheet: &[u8], parts: &mut [usize; PARTS], memory_len: usize) -> Outline
    requires { length parts.old ≡ part_places }
    ensures refusal_value { result.refusal ≡ (admitted sheet.now memory_len).refusal }
    ensures outlined { result.refusal.number ≡ 0 → Outlined sheet.now parts.new result.given }
{
    if MEMORY_LIMIT < memory_len {
        return Outline {
            refusal: refusals::refusal_at(MEMORY_TOO_LARGE, 0, 0),
            given: sheet_reader::nothing_given(),
        };
    }
    sheet_reader::outline_sheet(sheet, parts)
}

// The sheet admitted and checked: what carrying out and translating begin with.
pub fn judge(sheet: &[u8], parts: &mut [usize; PARTS], memory_len: usize) -> Judged
    requires { length parts.old ≡ part_places }
    ensures answer_value { result.answer ≡ checked_sheet sheet.now memory_len }
    ensures outlined { result.answer.refusal.number ≡ 0 → Outlined sheet.now parts.new result.given }
{
    let read = admit(sheet, parts, memory_len);
    let refusal = read.refusal;
    let given = read.given;
    if 0 < refusal.number {
        return Judged {
            answer: checks::check_refused(refusal),
            given,
        };
    }
    let answer = checks::check(sheet, parts, given, memory_len);
    Judged { answer, given }
}

// Whether a sheet would be refused for a memory of a length, and how many elements of its loads and stores have a byte.
pub fn check_sheet(sheet: &[u8], memory_len: usize) -> CheckAnswer
    ensures { result ≡ checked_sheet sheet.now memory_len }
{
    let mut parts = sheet_parts::no_parts();
    let judged = judge(sheet, &mut parts, memory_len);
    judged.answer
}

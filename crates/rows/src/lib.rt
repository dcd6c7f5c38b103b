// Answers as rows of numbers, as C takes them.
#![tactic(auto)]

ghost use Rattle.std.specs.Prelude.{◌≡◌};
ghost use Rattle.rows.specs.Rows.{answer_row, types_row, verdict_row, value_of, outcome_row, capped};
ghost use Rattle.rows.specs.Small.{Small, SmallVerdict, SmallOutcome};

use outcomes::{Explained, Outcome, Outside};
use refusals::Refusal;
use registers::MatrixType;
use replaying::Verdict;
use sheet::sizes::REGISTERS;

// Numbers of an answer: number, place, second place, count.
pub const ANSWER: usize = 4;

// Numbers of a sheet: layouts, views, steps.
pub const COUNTS: usize = 3;

// Bytes of the four registers' types: kind, rows, columns and 0 each.
pub const TYPES: usize = 16;

// Numbers of a verdict: whether the trace agrees, and else where it differs first.
pub const VERDICT: usize = 2;

// Sides in the row of an outcome.
const INSIDE: u32 = 0;

const BELOW: u32 = 1;

const ABOVE: u32 = 2;

// Numbers of an outcome: sort, byte or bits, dimension, side.
pub const OUTCOME: usize = 4;

// The largest number of a row.
const ROW_MOST: usize = 4294967295;

// A refusal and a count as the row of an answer. The result is the refusal's number.
pub fn put_answer(answer: &mut [u32; ANSWER], refusal: Refusal, count: usize) -> u32
    requires { Small refusal count }
    ensures value { result ≡ refusal.number }
    ensures answer_after { answer.new ≡ answer_row refusal count }
{
    let number = refusal.number as u32;
    *answer = [
        number,
        refusal.place as u32,
        refusal.element as u32,
        count as u32,
    ];
    number
}

pub fn put_types(types: &mut [u8; TYPES], all: [MatrixType; REGISTERS])
    ensures { types.new ≡ types_row all }
{
    let a = all[0];
    let b = all[1];
    let c = all[2];
    let d = all[3];
    *types = [
        a.kind, a.rows, a.columns, 0, b.kind, b.rows, b.columns, 0, c.kind, c.rows, c.columns, 0,
        d.kind, d.rows, d.columns, 0,
    ];
}

pub fn put_verdict(row: &mut [u32; VERDICT], verdict: Verdict)
    requires { SmallVerdict verdict }
    ensures { row.new ≡ verdict_row verdict }
{
    match verdict {
        Verdict::Agrees => {
            *row = [1, 0];
        }
        Verdict::Differs(index) => {
            *row = [0, index as u32];
        }
    }
}

fn value_of(o: Outcome) -> u32
    requires { SmallOutcome o }
    ensures { result ≡ value_of o }
{
    match o {
        Outcome::Skipped => 0,
        Outcome::Filled(bits) => bits,
        Outcome::Discarded => 0,
        Outcome::Placed(byte) => byte as u32,
    }
}

pub fn put_outcome(row: &mut [u32; OUTCOME], explained: Explained)
    requires { SmallOutcome explained.outcome }
    ensures { row.new ≡ outcome_row explained }
{
    let o = explained.outcome;
    let sort = expected::sort_of(o) as u32;
    let value = value_of(o);
    let outside = explained.outside;
    match outside {
        Outside::Nowhere => {
            *row = [sort, value, 0, INSIDE];
        }
        Outside::Below(d) => {
            *row = [sort, value, d as u32, BELOW];
        }
        Outside::Above(d) => {
            *row = [sort, value, d as u32, ABOVE];
        }
    }
}

// A trace may have bytes past the largest number of a row: a place there is given as that number.
pub fn cap(refusal: Refusal) -> Refusal
    ensures { result ≡ capped refusal }
{
    if refusal.place <= ROW_MOST {
        return refusal;
    }
    refusals::refusal_at(refusal.number, ROW_MOST, refusal.element)
}

// Carrying out a sheet: the check, then a performance that cannot fail.
#![tactic(auto)]

pub mod moving;
pub mod performing;

ghost use Rattle.std.specs.Prelude.{◌≡◌};
ghost use Rattle.carrying.specs.Carrying.{answer_with, refused_answer, carried, carried_memory};

use counts::Counts;
use refusals::Refusal;
use registers::MatrixType;
use sheet::sizes::{ELEMENTS, REGISTERS};

// The answer of carrying out: a refusal with empty registers and nothing counted, or the registers' types and what was counted.
// Their elements are the lent ones.
#[derive(Clone, Copy)]
pub struct CarryAnswer {
    pub refusal: Refusal,
    pub counts: Counts,
    pub types: [MatrixType; REGISTERS],
}

// After a step, and after all: types, and what was counted. The registers' elements and memory are the lent ones.
#[derive(Clone, Copy)]
pub struct Stepped {
    pub types: [MatrixType; REGISTERS],
    pub counts: Counts,
}

pub fn carry_refused(refusal: Refusal) -> CarryAnswer
    ensures { result ≡ refused_answer refusal }
{
    let types = registers::empty_types();
    CarryAnswer {
        refusal,
        counts: counts::no_counts(),
        types,
    }
}

// Carries out a sheet on the lent memory, with the registers' elements in the lent array. Refused: memory is unchanged and the
// registers are empty.
pub fn carry_out(sheet: &[u8], memory: &mut [u8], elements: &mut [u32; ELEMENTS]) -> CarryAnswer
    ensures elements_after { answer_with result elements.new ≡ carried sheet.now memory.old }
    ensures memory_after { memory.new ≡ carried_memory sheet.now memory.old }
{
    registers::empty_elements(elements);
    let mut parts = sheet_parts::no_parts();
    let judged = checking::judge(sheet, &mut parts, memory.len());
    let found = judged.answer;
    let refused = found.refusal;
    if 0 < refused.number {
        return carry_refused(refused);
    }
    let given = judged.given;
    let done = performing::perform(sheet, &parts, given, memory, elements);
    let types = done.types;
    let counts = done.counts;
    CarryAnswer {
        refusal: refusals::not_refused(),
        counts,
        types,
    }
}

// Whole steps: fill, reduce, transpose, multiply-add and vector steps. Each makes one matrix in one register.
#![tactic(auto)]

pub mod stops;
pub mod transposes;
pub mod types;

ghost use Rattle.std.specs.Prelude.{◌≡◌, ℕ, length};
ghost use Rattle.sheet.specs.Sizes.{matrix_places, element_places};
ghost use Rattle.registers.specs.Sized.{Sized};
ghost use Rattle.registers.specs.Past.{Past};
ghost use Rattle.whole_steps.specs.Refusals.{whole_refusal};
ghost use Rattle.whole_steps.specs.Whole.{whole_types, whole_block_on, whole_elements};
ghost use Rattle.whole_steps.specs.Within.{WholeOk};

use registers::MatrixType;
use sheet::WholeStep;
use sheet::sizes::{ELEMENTS, PLACES, REGISTERS};

// The elements that a whole step makes, in the first places of a lent block: not in the register, since the result may name a source.
fn whole_block(
    out: &mut [u32; PLACES],
    types: [MatrixType; REGISTERS],
    elements: &[u32; ELEMENTS],
    memory: &[u8],
    step: WholeStep,
)
    requires { WholeOk step × Sized types × ((edition : ℕ) × ((whole_refusal edition types (length memory.now) step).number ≡ 0)) }
    ensures { out.new ≡ whole_block_on out.old types elements.now memory.now step }
{
    match step {
        WholeStep::Fill {
            rows,
            columns,
            value,
            ..
        } => {
            registers::blocks::fill_block(out, value, usize::from(rows), usize::from(columns));
        }
        WholeStep::Reduce {
            source,
            rows,
            columns,
            mode,
            combine,
            ..
        } => {
            let t = registers::the_type(types, source);
            reduces::reduce_block(
                out,
                elements,
                source,
                t,
                mode,
                combine,
                usize::from(rows),
                usize::from(columns),
            );
        }
        WholeStep::Transpose { source, .. } => {
            let t = registers::the_type(types, source);
            transposes::transpose_block(out, elements, source, t);
        }
        WholeStep::MultiplyAdd { a, b, c, .. } => {
            let ta = registers::the_type(types, a);
            let tb = registers::the_type(types, b);
            let tc = registers::the_type(types, c);
            products::multiply_block(out, elements, a, ta, b, tb, c, tc);
        }
        WholeStep::Vector(v) => {
            let t = registers::the_type(types, v.input);
            vectors::vector_block(out, elements, memory, t, v);
        }
    }
}

// A whole step that is not refused. The answer is the types. What the lent block holds does not matter.
pub fn perform_whole(
    block: &mut [u32; PLACES],
    types: [MatrixType; REGISTERS],
    elements: &mut [u32; ELEMENTS],
    memory: &[u8],
    step: WholeStep,
) -> [MatrixType; REGISTERS]
    requires whole_ok { WholeOk step × Sized types × ((edition : ℕ) × ((whole_refusal edition types (length memory.now) step).number ≡ 0)) }
    requires past { Past types elements.old × (length elements.old ≡ element_places) × (length block.old ≡ matrix_places) }
    ensures value { result ≡ whole_types types step }
    ensures block_len { length block.new ≡ matrix_places }
    ensures elements_after { elements.new ≡ whole_elements types elements.old memory.now step }
{
    let register = types::whole_result(step);
    let t = types::whole_type(types, step);
    let old = registers::element_count(registers::the_type(types, register));
    let count = registers::element_count(t);
    whole_block(block, types, elements, memory, step);
    registers::put_block(elements, register, block, count, old);
    registers::with_type(types, register, t)
}

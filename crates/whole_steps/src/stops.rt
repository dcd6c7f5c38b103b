// When a whole step is refused.
ghost use Rattle.std.specs.Prelude.{◌≡◌};
ghost use Rattle.whole_steps.specs.Refusals.{whole_refusal};
ghost use Rattle.whole_steps.specs.Within.{WholeOk};

use super::transposes;
use products::shapes::multiply_refusal;
use reduces::shapes::reduce_refusal;
use refusals::{Stop, stop_at};
use registers::MatrixType;
use sheet::WholeStep;
use sheet::sizes::REGISTERS;
use vectors::vector_refusal;

// By the edition, the registers' types and the memory's length.
pub fn whole_refusal(
    edition: u8,
    types: [MatrixType; REGISTERS],
    memory: usize,
    step: WholeStep,
) -> Stop
    requires { WholeOk step }
    ensures { result ≡ whole_refusal edition types memory step }
{
    match step {
        WholeStep::Fill { .. } => stop_at(0, 0),
        WholeStep::Reduce {
            source,
            rows,
            columns,
            mode,
            ..
        } => {
            let t = registers::the_type(types, source);
            stop_at(reduce_refusal(t, rows, columns, mode), 0)
        }
        WholeStep::Transpose { source, .. } => {
            let t = registers::the_type(types, source);
            stop_at(transposes::transpose_refusal(t), 0)
        }
        WholeStep::MultiplyAdd { a, b, c, .. } => {
            let ta = registers::the_type(types, a);
            let tb = registers::the_type(types, b);
            let tc = registers::the_type(types, c);
            stop_at(multiply_refusal(ta, tb, tc), 0)
        }
        WholeStep::Vector(v) => {
            let t = registers::the_type(types, v.input);
            vector_refusal(t, memory, v)
        }
    }
}

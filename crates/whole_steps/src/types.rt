// What a whole step makes: in which register, and of which type.
ghost use Rattle.std.specs.Prelude.{◌≡◌};
ghost use Rattle.whole_steps.specs.Whole.{whole_result, whole_type, whole_types};
ghost use Rattle.whole_steps.specs.Within.{WholeOk};

use super::transposes;
use reduces::shapes::reduced_type;
use registers::MatrixType;
use sheet::WholeStep;
use sheet::sizes::REGISTERS;
use vectors::vector_type;

pub fn whole_result(step: WholeStep) -> u8
    ensures { result ≡ whole_result step }
{
    match step {
        WholeStep::Fill { register, .. } => register,
        WholeStep::Reduce { result, .. } => result,
        WholeStep::Transpose { result, .. } => result,
        WholeStep::MultiplyAdd { result, .. } => result,
        WholeStep::Vector(v) => v.result,
    }
}

pub fn whole_type(types: [MatrixType; REGISTERS], step: WholeStep) -> MatrixType
    requires { WholeOk step }
    ensures { result ≡ whole_type types step }
{
    match step {
        WholeStep::Fill {
            rows,
            columns,
            kind,
            ..
        } => MatrixType {
            kind,
            rows,
            columns,
        },
        WholeStep::Reduce {
            source,
            rows,
            columns,
            ..
        } => {
            let t = registers::the_type(types, source);
            reduced_type(t, rows, columns)
        }
        WholeStep::Transpose { source, .. } => {
            let t = registers::the_type(types, source);
            transposes::transposed_type(t)
        }
        WholeStep::MultiplyAdd { c, .. } => registers::the_type(types, c),
        WholeStep::Vector(v) => vector_type(v),
    }
}

// The types after a whole step.
pub fn whole_types(types: [MatrixType; REGISTERS], step: WholeStep) -> [MatrixType; REGISTERS]
    requires { WholeOk step }
    ensures { result ≡ whole_types types step }
{
    let t = whole_type(types, step);
    registers::with_type(types, whole_result(step), t)
}

// A linear pass, and the register that it computes. (Contracts from here up speak of a unit by `state_of`, as those of the unit do.)
ghost use Rattle.std.specs.Prelude.{◌≡◌};
ghost use Rattle.stage.specs.declared.step.System.TheVariants.{Linear as LinearSystem};
ghost use Rattle.cordic.specs.Outcome.{mapped};
ghost use Rattle.cordic.specs.Seen.{state_of, seen};
ghost use Rattle.cordic.specs.Tables.{linear};
ghost use Rattle.cordic.specs.Unit.{passed};
ghost use Rattle.network.specs.Plain.{computed};

use cordic::{Answer, Idle, Linear, Mode, Refused, UnitFault};
use stage::{Stage, Triple};

// The y of a rotation, y + x · z; the z of a vectoring, z + y / x.
pub(crate) fn compute<S: Stage>(
    unit: Idle<S>,
    mode: Mode,
    start: Triple,
) -> Result<Answer<S, i32>, Refused<S, UnitFault>>
    ensures answer { seen S.Stage result ≡ mapped (computed mode) (passed S.Stage.rule LinearSystem linear mode start (state_of S.Stage unit.stage)) }
{
    let Answer { unit, value, steps } = unit.pass(Linear, mode, start)?;
    let value = match mode {
        Mode::Rotation => value.y,
        Mode::Vectoring => value.z,
    };
    Ok(Answer { unit, value, steps })
}

// The activation tanh: a hyperbolic rotation of the net, then the quotient of the two registers that it leaves.
ghost use Rattle.std.specs.Prelude.{◌≡◌};
ghost use Rattle.cordic.specs.Outcome.{mapped};
ghost use Rattle.cordic.specs.Seen.{state_of, seen};
ghost use Rattle.network.specs.Neuron.{tanh as tanh_of};

use super::compute::compute;
use super::within::later;
use cordic::{Answer, Hyperbolic, Idle, Mode, Refused, UnitFault};
use stage::{Stage, Triple};

pub(crate) fn tanh<S: Stage>(
    unit: Idle<S>,
    net: i32,
) -> Result<Answer<S, i32>, Refused<S, UnitFault>>
    ensures answer { seen S.Stage result ≡ mapped (λ q. q.t) (tanh_of S.Stage.rule net (state_of S.Stage unit.stage)) }
{
    let start = Triple {
        x: 0x1000_0000,
        y: 0,
        z: net,
    };
    let Answer { unit, value, steps } = unit.pass(Hyperbolic, Mode::Rotation, start)?;
    let registers = Triple {
        x: value.x,
        y: value.y,
        z: 0,
    };
    later(compute(unit, Mode::Vectoring, registers), steps)
}

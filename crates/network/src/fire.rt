// A neuron at its inputs: the net, then the activation. (Unit and inputs stay two: the unit is moved on, the inputs are lent to each neuron.)
ghost use Rattle.std.specs.Prelude.{◌≡◌};
ghost use Rattle.cordic.specs.Outcome.{mapped};
ghost use Rattle.cordic.specs.Seen.{state_of, seen};
ghost use Rattle.network.specs.Neuron.{fired};
ghost use Rattle.network.specs.Run.{output};

use super::activation::Activation;
use super::faults::NeuronFault;
use super::net::net;
use super::neurons::Neuron;
use super::tanh::tanh;
use super::within::{later, placed};
use cordic::{Answer, Idle, Refused};
use stage::Stage;

pub(crate) fn fire<S: Stage>(
    unit: Idle<S>,
    activation: Activation,
    inputs: &[i32],
    neuron: &Neuron,
) -> Result<Answer<S, i32>, Refused<S, NeuronFault>>
    ensures answer { seen S.Stage result ≡ mapped output (fired S.Stage.rule activation inputs.now neuron.now (state_of S.Stage unit.stage)) }
{
    let answer = net(unit, inputs, neuron)?;
    match activation {
        Activation::Identity => Ok(answer),
        Activation::Tanh => {
            let Answer { unit, value, steps } = answer;
            let squashed = placed(later(tanh(unit, value), steps), None)?;
            Ok(squashed)
        }
    }
}

// The net value of a neuron: its bias and the products of its inputs and weights, one after another.
ghost use Rattle.std.specs.Prelude.{◌≡◌, ◌≤◌, IfOk};
ghost use Rattle.cordic.specs.Outcome.{inside};
ghost use Rattle.cordic.specs.Seen.{state_of, seen};
ghost use Rattle.network.specs.Plain.{netted, in_product};

use super::compute::compute;
use super::faults::NeuronFault;
use super::neurons::Neuron;
use super::within::{later, placed};
use cordic::{Answer, Idle, Mode, Refused};
use stage::{Stage, Triple};

pub(crate) fn net<S: Stage>(
    unit: Idle<S>,
    inputs: &[i32],
    neuron: &Neuron,
) -> Result<Answer<S, i32>, Refused<S, NeuronFault>>
    ensures steps { IfOk result (λ a. a.steps ≤ 1792) }
    ensures answer { seen S.Stage result ≡ inside in_product (netted S.Stage.rule 0 inputs.now neuron.now.weights neuron.now.bias (state_of S.Stage unit.stage)) }
{
    let mut answer = Answer {
        unit,
        value: neuron.bias,
        steps: 0,
    };
    let pairs = inputs.iter().zip(neuron.weights.as_slice());
    for (i, (input, weight)) in pairs.enumerate() {
        let Answer { unit, value, steps } = answer;
        let start = Triple {
            x: *input,
            y: value,
            z: *weight,
        };
        let product = compute(unit, Mode::Rotation, start);
        // the cast fits: at most 64 inputs
        answer = placed(later(product, steps), Some(i as u32))?;
    }
    Ok(answer)
}

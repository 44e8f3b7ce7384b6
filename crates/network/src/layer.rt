// The neurons of one layer, read from the plan and fired one after another.
ghost use Rattle.std.specs.Prelude.{◌≡◌, ◌≤◌, List, [], length};
ghost use Rattle.cordic.specs.Outcome.{mapped};
ghost use Rattle.cordic.specs.Seen.{state_of, seen};
ghost use Rattle.network.specs.Neuron.{Neuron as NeuronOf};
ghost use Rattle.network.specs.Plain.{laid};
ghost use Rattle.network.specs.Plan.{LayerOf, records};
ghost use Rattle.network.specs.Reading.{Ahead};

use super::activation::Activation;
use super::faults::{NetworkFault, NeuronFault};
use super::fire::fire;
use super::neurons::Neuron;
use super::site::Site;
use super::within::{later, placed};
use arrayvec::ArrayVec;
use cordic::{Answer, Idle, Refused};
use stage::Stage;

// A layer as its record heads it, and its number from 0.
#[derive(Clone, Copy)]
pub(crate) struct Head {
    pub number: u32,
    pub activation: Activation,
    pub neurons: u16,
}

// The outputs of a layer whose neurons these bytes begin with.
pub(crate) fn run_layer<S: Stage>(
    unit: Idle<S>,
    head: Head,
    bytes: &[u8],
    inputs: &[i32],
) -> Result<Answer<S, ArrayVec<i32, 64>>, Refused<S, NetworkFault>>
    requires { (((ns : List NeuronOf) × (ls : List LayerOf) × Ahead (records bytes.now) 0 head.neurons (length inputs.now) ns ls)) × (head.neurons ≤ 64) }
    ensures answer { (ns : List NeuronOf) (ls : List LayerOf) → Ahead (records bytes.now) 0 head.neurons (length inputs.now) ns ls → mapped (λ v. v.items) (seen S.Stage result) ≡ laid S.Stage.rule head.number head.activation inputs.now [] 0 ns (state_of S.Stage unit.stage) }
{
    let mut answer = Answer {
        unit,
        value: ArrayVec::new(),
        steps: 0,
    };
    let mut rest = bytes;
    // the rest is what the reader of a neuron answers, and no index
    for number in 0..head.neurons {
        let Answer {
            unit,
            value: mut outputs,
            steps,
        } = answer;
        let (neuron, tail) = Neuron::read(rest, inputs.len());
        let site = Site {
            layer: head.number,
            // widens; with `u32::from` the written proofs, which name the number itself, did not close
            neuron: number as u32,
        };
        let fired = fire(unit, head.activation, inputs, &neuron);
        let Answer {
            unit,
            value: output,
            steps,
        } = placed(later(fired, steps), site)?;
        outputs.push(output);
        answer = Answer {
            unit,
            value: outputs,
            steps,
        };
        rest = tail;
    }
    Ok(answer)
}

// The layers of a plan, each of which reads what the one before it put out.
ghost use Rattle.std.specs.Prelude.{◌≡◌, ◌+◌, ◌*◌, ◌≤◌, length, drop};
ghost use Rattle.cordic.specs.Outcome.{mapped};
ghost use Rattle.cordic.specs.Seen.{state_of, seen};
ghost use Rattle.network.specs.Network.{Describes};
ghost use Rattle.network.specs.Plain.{flown};
ghost use Rattle.network.specs.Run.{entrance};
ghost use Rattle.network.specs.Walk.{layers_of};

use super::activation::Activation;
use super::faults::NetworkFault;
use super::layer::{Head, run_layer};
use super::record::Record;
use super::within::later;
use arrayvec::ArrayVec;
use cordic::{Answer, Idle, Refused};
use stage::Stage;

// What follows the records of these neurons.
fn after_neurons(bytes: &[u8], neurons: usize, inputs: usize) -> &[u8]
    requires { (neurons ≤ 64) × ((inputs ≤ 64) × (8 * (neurons * (inputs + 1)) ≤ length bytes.now)) }
    ensures answer { result.now ≡ drop (8 * (neurons * (inputs + 1))) bytes.now }
{
    let size = 8 * (neurons * (inputs + 1));
    &bytes[size..]
}

// The outputs of the last layer, of which a plan has at most four.
pub(crate) fn run_layers<S: Stage>(
    unit: Idle<S>,
    plan: &[u8],
    inputs: ArrayVec<i32, 64>,
) -> Result<Answer<S, ArrayVec<i32, 64>>, Refused<S, NetworkFault>>
    requires { (Describes (layers_of plan.now) plan.now) × (length inputs.items ≡ entrance (layers_of plan.now)) }
    ensures answer { mapped (λ v. v.items) (seen S.Stage result) ≡ flown S.Stage.rule 0 (layers_of plan.now) inputs.items (state_of S.Stage unit.stage) }
{
    let mut answer = Answer {
        unit,
        value: inputs,
        steps: 0,
    };
    let mut rest = plan;
    // four, as `START` of the decoder has it; what is left is what the reader of a record answers, and no index
    for number in 0..4 {
        let Some((head, tail)) = Record::read(rest) else {
            break;
        };
        let Answer { unit, value, steps } = answer;
        let Ok(activation) = Activation::try_from(head.flag) else {
            // no plan has another flag
            unreachable()
        };
        let opened = Head {
            number,
            activation,
            neurons: head.index,
        };
        // widens; with `usize::from` the written proofs, which name the number itself, did not close
        rest = after_neurons(tail, head.index as usize, value.len());
        answer = later(run_layer(unit, opened, tail, value.as_slice()), steps)?;
    }
    Ok(answer)
}

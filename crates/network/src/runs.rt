// The network run: the one call that a program makes. (Plan, samples and places stay three: each is lent by someone else.)
ghost use Rattle.std.specs.Prelude.{◌≡◌, ◌≤◌, length, IfOk};
ghost use Rattle.cordic.specs.Outcome.{mapped};
ghost use Rattle.network.specs.Claim.{Whole};
ghost use Rattle.network.specs.Run.{recurrence, outputs, written};
ghost use Rattle.network.specs.Seen.{feed_of, attempted, seen_by};

use super::admit::admit;
use super::deliver::deliver;
use super::faults::NetworkFault;
use super::layers::run_layers;
use super::ran::Ran;
use super::sample::Sample;
use cordic::{Answer, Idle, Refused};
use stage::Stage;

// The number of outputs. Places are written after the last step of the last neuron, and nowhere else.
fn attempt<S: Stage, P: Sample>(
    unit: Idle<S>,
    plan: &[u8],
    samples: &[P],
    out: &mut [i32],
) -> Result<Answer<S, usize>, Refused<S, NetworkFault>>
    ensures same { attempted S.Stage out.new result ≡ mapped outputs (recurrence (feed_of S.Stage P.Sample plan.now samples.now out.old unit.stage)) }
    ensures within { IfOk result (λ a. a.value ≤ length out.new) }
    ensures lent { out.new ≡ written (recurrence (feed_of S.Stage P.Sample plan.now samples.now out.old unit.stage)) out.old }
{
    // the unit goes back with the fault, so that `?` cannot return it
    let inputs = match admit(plan, samples, out.len()) {
        Ok(inputs) => inputs,
        Err(fault) => {
            return Err(Refused {
                unit,
                fault,
                steps: 0,
            });
        }
    };
    let Answer { unit, value, steps } = run_layers(unit, plan, inputs)?;
    deliver(value.as_slice(), out);
    Ok(Answer {
        unit,
        value: value.len(),
        steps,
    })
}

// Runs the plan on the samples and writes the outputs of the last layer into the first places of `out`.
// The contract is the whole claim of this library; the number of outputs is `within` the places, so that it counts those written.
pub fn run<S: Stage, P: Sample>(
    unit: Idle<S>,
    plan: &[u8],
    samples: &[P],
    out: &mut [i32],
) -> Ran<S>
    ensures within { IfOk result.outcome (λ k. k ≤ length out.new) }
    ensures whole { Whole (feed_of S.Stage P.Sample plan.now samples.now out.old unit.stage) S.Stage.TICKS (seen_by S.Stage out.new result) result.ticks out.new }
{
    let (unit, outcome, steps) = match attempt(unit, plan, samples, out) {
        Ok(Answer { unit, value, steps }) => (unit, Ok(value), steps),
        Err(Refused { unit, fault, steps }) => (unit, Err(fault), steps),
    };
    Ran {
        unit,
        outcome,
        steps,
        ticks: S::ticks_in(steps),
    }
}

// The decision of the program: outputs or a refusal, from the bytes that it read.
ghost use Rattle.std.specs.Prelude.{◌≡◌};
ghost use Rattle.neuron.specs.Verdict.{verdict};
ghost use Rattle.neuron.specs.Told.{told};

use super::input::read_samples;
use super::outputs::Outputs;
use super::refusal::Refusal;
use arrayvec::ArrayVec;
use cordic::Idle;
use network::{Plan, Ran, run};
use stage::Parallel;

// Judges the plan first, then standard input, then runs on the parallel stage with 64 places.
pub(crate) fn decide(plan: &[u8], input: &[u8]) -> Result<Outputs, Refusal>
    ensures answer { told result ≡ verdict plan.now input.now }
{
    Plan::decode(plan)?;
    let samples = read_samples(input)?;
    // lent as places, all of them in use
    let mut places = [0i32; 64];
    let Ran {
        unit,
        outcome,
        steps,
        ticks: _,
    } = run(
        Idle::new(Parallel::new()),
        plan,
        samples.as_slice(),
        &mut places,
    );
    unit.into_stage();
    let count = outcome?;
    let mut values = ArrayVec::from(places);
    values.truncate(count);
    Ok(Outputs { values, steps })
}

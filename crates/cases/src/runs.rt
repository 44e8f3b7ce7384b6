// One run of a network over a probe.
use super::done::Done;
use super::left::Left;
use super::outcome::Outcome;
use super::places::lend;
use super::run_end::RunEnd;
use cordic::Idle;
use network::{Ran, Sample, run};
use stage::{Probe, Stage};
use std::alloc::{AllocError, Global};

pub(crate) fn run_network<S: Stage + Drop, P: Sample>(
    heap: Global,
    stage: Probe<S>,
    plan: &[u8],
    samples: &[P],
    lent: u8,
) -> Result<Done, AllocError> {
    let mut places = lend(heap, lent)?;
    let Ran {
        unit,
        outcome,
        steps,
        ticks,
    } = run(Idle::new(stage), plan, samples, places.as_mut_slice());
    let probe = unit.into_stage();
    Ok(Done {
        outcome: Outcome::Ran(RunEnd {
            outcome,
            steps,
            ticks,
            places,
        }),
        left: Left::from(&probe),
        recorded: None,
    })
}

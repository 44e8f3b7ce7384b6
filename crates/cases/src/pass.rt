// One pass of the unit over a pile.
use super::done::Done;
use super::left::Left;
use super::outcome::Outcome;
use super::recorded::Recorded;
use super::stages::Pile;
use cordic::{Answer, Idle, Mode, Refused};
use stage::{Stage, System, Triple};

pub(crate) fn pass<S: Stage + Drop>(
    stage: Pile<S>,
    system: System,
    mode: Mode,
    start: Triple,
) -> Done {
    let (unit, outcome) = match Idle::new(stage).pass_in(system, mode, start) {
        Ok(Answer { unit, value, steps }) => {
            let ticks = S::ticks_in(steps);
            (
                unit,
                Outcome::Ended {
                    value,
                    steps,
                    ticks,
                },
            )
        }
        Err(
            Refused {
                unit,
                fault,
                steps: _,
            },
        ) => (unit, Outcome::Refused(fault)),
    };
    let probe = unit.into_stage();
    let left = Left::from(&probe);
    let recorder = probe.into_inner();
    Done {
        outcome,
        left,
        recorded: Some(Recorded::from(&recorder)),
    }
}

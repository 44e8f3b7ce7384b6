// A run that met a refused step: the stage's fault becomes the unit's.
ghost use Rattle.std.specs.Prelude.{◌≡◌};
ghost use Rattle.cordic.specs.Halted.{refused_by};

use super::faults::{Cause, UnitFault};
use super::mode::Mode;
use super::states::{Idle, Refused};
use stage::{Overflow, System};

// Where a run stands: the steps made so far, and the number of the next, from 1, which `From` could not add up without a bound.
#[derive(Clone, Copy)]
pub(crate) struct Place {
    pub system: System,
    pub mode: Mode,
    pub steps: u32,
    pub step: u32,
}

pub(crate) struct Halted<S> {
    pub stage: S,
    pub place: Place,
    pub overflow: Overflow,
}

impl<S> From<Halted<S>> for Refused<S, UnitFault> {
    ghost from_gives = { λ h r. r ≡ refused_by h };

    fn from(h: Halted<S>) -> Refused<S, UnitFault> {
        let Halted {
            stage,
            place,
            overflow,
        } = h;
        let cause = Cause::Overflowed {
            step: place.step,
            overflow,
        };
        Refused {
            unit: Idle { stage },
            fault: UnitFault {
                system: place.system,
                mode: place.mode,
                cause,
                steps: place.steps,
            },
            steps: place.steps,
        }
    }
}

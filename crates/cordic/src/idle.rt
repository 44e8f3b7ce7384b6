// An idle unit: made from a stage, taken apart into it, or loaded.
ghost use Rattle.std.specs.Prelude.{◌≡◌, IfOk};
ghost use Rattle.cordic.specs.Order.{Reachable};
ghost use Rattle.cordic.specs.Seen.{state_of, load_seen, RefusedWith};
ghost use Rattle.cordic.specs.Unit.{loaded};
ghost use Rattle.cordic.specs.declared.mode.Mode.TheVariants.{Rotation};

use super::coordinate::Coordinate;
use super::faults::UnitFault;
use super::mode::Mode;
use super::refusal::Start;
use super::states::{Idle, Loaded, Refused};
use stage::{Stage, Triple};

impl<S> Idle<S> {
    // A unit over a stage, which stays as it is.
    pub fn new(stage: S) -> Idle<S>
        ensures same { result.stage ≡ stage }
    {
        Idle { stage }
    }

    // Takes the unit apart: its stage.
    pub fn into_stage(self) -> S
        ensures same { result ≡ self.stage }
    {
        let Idle { stage } = self;
        stage
    }
}

impl<S: Stage> Idle<S> {
    // One load of the stage, or a refusal, which leaves the stage as it was. (Three arguments, as in `pass`: a struct would be made for one call.)
    pub fn load<C: Coordinate + Copy>(
        self,
        system: C,
        mode: Mode,
        t: Triple,
    ) -> Result<Loaded<S, C>, Refused<S, UnitFault>>
        ensures answer { load_seen S.Stage result ≡ loaded S.Stage.rule C.Coordinate.kind C.Coordinate.order mode t (state_of S.Stage self.stage) }
        ensures same { IfOk result (λ u. u.mode ≡ mode) }
        ensures reach { mode ≡ Rotation → (RefusedWith 5 result → Reachable C.Coordinate.order t.z → ⊥) × ((Reachable C.Coordinate.order t.z → ⊥) → RefusedWith 5 result) }
    {
        let Idle { mut stage } = self;
        let start = Start {
            system,
            mode,
            triple: t,
        };
        // the unit goes back with the fault, so that `?` cannot return it
        if let Some(cause) = start.refusal() {
            return Err(Refused {
                unit: Idle { stage },
                fault: UnitFault {
                    system: system.system(),
                    mode,
                    cause,
                    steps: 0,
                },
                steps: 0,
            });
        }
        stage.load(t);
        Ok(Loaded {
            stage,
            system,
            mode,
        })
    }
}

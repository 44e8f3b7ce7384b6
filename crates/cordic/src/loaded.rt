// A loaded unit makes the iterations of its system, in order.
ghost use Rattle.std.specs.Prelude.{◌≡◌, ◌^◌, ◌<◌, IfErr};
ghost use Rattle.cordic.specs.Advanced.{advanced};
ghost use Rattle.cordic.specs.Seen.{state_of, run_seen, HaltsIn};
ghost use Rattle.cordic.specs.Unit.{told as told_by, took, unit_ran};

use super::coordinate::Coordinate;
use super::faults::UnitFault;
use super::halted::{Halted, Place};
use super::mode::Mode;
use super::order::Iteration;
use super::states::{Finished, Loaded, Refused};
use stage::{Overflow, Stage, Step, System, Triple};

// What an iteration tells the stage.
fn told(system: System, mode: Mode, k: Iteration, t: Triple) -> Step
    requires { k.entry < 2 ^ 31 }
    ensures answer { result ≡ told_by system mode k t }
{
    Step {
        system,
        direction: mode.direction(t),
        shift: k.shift,
        // fits, by what is required
        entry: k.entry as i32,
    }
}

// One iteration: the stage after it, or the stage that refused it.
fn advance<S: Stage>(mut stage: S, place: Place, k: Iteration) -> Result<S, Halted<S>>
    requires { k.entry < 2 ^ 31 }
    ensures answer { advanced S.Stage result ≡ took S.Stage.rule (told_by place.system place.mode k (S.Stage.triple stage)) (state_of S.Stage stage) }
    ensures same { IfErr result (λ h. h.place ≡ place) }
{
    let step = told(place.system, place.mode, k, stage.read());
    // both arms move the stage, which two closures of `map` and `map_err` could not
    match stage.step(step) {
        Ok(()) => Ok(stage),
        Err(overflow) => Err(Halted {
            stage,
            place,
            overflow,
        }),
    }
}

impl<S: Stage, C: Coordinate + Copy> Loaded<S, C> {
    // All iterations, or the refusal of one, which leaves the stage at the last accepted triple.
    pub fn run(self) -> Result<Finished<S>, Refused<S, UnitFault>>
        ensures answer { run_seen S.Stage result ≡ unit_ran S.Stage.rule C.Coordinate.kind C.Coordinate.order self.mode (state_of S.Stage self.stage) }
        ensures refused { HaltsIn S.Stage C.Coordinate.kind C.Coordinate.order self.mode result }
    {
        let Loaded {
            mut stage,
            system,
            mode,
        } = self;
        let rows = system.rows();
        for (i, row) in rows.iter().enumerate() {
            // fits, as the number of rows below does: an order has at most 64 iterations
            let steps = i as u32;
            let place = Place {
                system: system.system(),
                mode,
                steps,
                step: steps + 1,
            };
            stage = advance(stage, place, Iteration::from(*row))?;
        }
        Ok(Finished {
            stage,
            steps: rows.len() as u32,
        })
    }
}

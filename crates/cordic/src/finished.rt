// A finished unit is read out, and is idle again.
ghost use Rattle.std.specs.Prelude.{◌≡◌};

use super::states::{Answer, Finished, Idle};
use stage::{Stage, Triple};

impl<S: Stage> Finished<S> {
    // The triple, the steps made, and the unit, whose stage stays as it is.
    pub fn read_out(self) -> Answer<S, Triple>
        ensures answer { result.value ≡ S.Stage.triple self.stage }
        ensures steps { result.steps ≡ self.steps }
        ensures same { result.unit.stage ≡ self.stage }
    {
        let Finished { stage, steps } = self;
        let value = stage.read();
        Answer {
            unit: Idle { stage },
            value,
            steps,
        }
    }
}

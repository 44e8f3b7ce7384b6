// What a fault of the unit says.
ghost use Rattle.std.specs.Prelude.{◌≡◌};
ghost use Rattle.cordic.specs.Faults.{reported};

use super::faults::{Cause, Report, UnitFault};

impl UnitFault {
    // (A method and no `From`: its name says what is made.)
    pub fn report(self) -> Report
        ensures answer { result ≡ reported self }
    {
        let blank = Report {
            number: 5,
            system: self.system,
            mode: self.mode,
            step: None,
            register: None,
            kept: None,
            steps: self.steps,
        };
        match self.cause {
            Cause::Unreachable => blank,
            Cause::BadStart => Report { number: 6, ..blank },
            Cause::Overflowed { step, overflow } => Report {
                number: 7,
                step: Some(step),
                register: Some(overflow.register),
                kept: Some(overflow.kept),
                ..blank
            },
        }
    }
}

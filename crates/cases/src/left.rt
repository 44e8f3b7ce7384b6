// What is left in the stage after a request, as the probe around it tells.
ghost use Rattle.std.specs.Prelude.{◌≡◌};

use super::registers::Registers;
use stage::{Probe, Stage, Triple};
use std::fmt;

#[derive(Clone, Copy)]
pub struct Left {
    held: Triple,
    accepted: u32,
    before: Option<Triple>,
}

impl<S: Stage> From<&Probe<S>> for Left {
    ghost from_gives = { λ probe left. (left.held ≡ S.Stage.triple probe.now.below) × ((left.accepted ≡ probe.now.tally.accepted) × (left.before ≡ probe.now.tally.before)) };

    fn from(probe: &Probe<S>) -> Left {
        Left {
            held: probe.read(),
            accepted: probe.accepted(),
            before: probe.before_latest(),
        }
    }
}

impl fmt::Display for Left {
    fn fmt<W: fmt::Write>(&self, f: &mut fmt::Formatter<W>) -> fmt::Result {
        write!(
            f,
            "held {} count {} before {}",
            Registers(Some(self.held)),
            self.accepted,
            Registers(self.before),
        )
    }
}

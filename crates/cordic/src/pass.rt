// A pass: one load, its run and the read-out. (`state_of` and `seen` are the words in which contracts speak of a unit and of what it gives back.)
ghost use Rattle.std.specs.Prelude.{◌≡◌, ◌≤◌, pos, ◌+ℤ◌, ◌≤ℤ◌, unsigned_abs};
ghost use Rattle.stage.specs.Stage.{Rule};
ghost use Rattle.stage.specs.Word.{shifted};
ghost use Rattle.stage.specs.declared.step.System.TheVariants.{Linear as LinearSystem};
ghost use Rattle.cordic.specs.Outcome.{State, AtEnd, bare};
ghost use Rattle.cordic.specs.Seen.{state_of, seen};
ghost use Rattle.cordic.specs.Tables.{linear};
ghost use Rattle.cordic.specs.Unit.{passed};
ghost use Rattle.cordic.specs.declared.mode.Mode.TheVariants.{Rotation, Vectoring};

use super::coordinate::Coordinate;
use super::faults::UnitFault;
use super::mode::Mode;
use super::states::{Answer, Idle, Refused};
use stage::{Stage, Triple};

impl<S: Stage> Idle<S> {
    // Apart from `pass`, so that each of its promises is shown of one result, and not at each of three returns.
    fn traverse<C: Coordinate + Copy>(
        self,
        system: C,
        mode: Mode,
        t: Triple,
    ) -> Result<Answer<S, Triple>, Refused<S, UnitFault>>
        ensures answer { seen S.Stage result ≡ passed S.Stage.rule C.Coordinate.kind C.Coordinate.order mode t (state_of S.Stage self.stage) }
    {
        let loaded = self.load(system, mode, t)?;
        let finished = loaded.run()?;
        Ok(finished.read_out())
    }

    // Loads, runs and reads out. An accepted rotation spends its angle to within one unit, accepted linear vectoring
    // its y to within a(28) + 27, a(28) being x shifted by 28. Any other kind of stage that holds the same triple gives the same
    // but for its notes.
    pub fn pass<C: Coordinate + Copy>(
        self,
        system: C,
        mode: Mode,
        t: Triple,
    ) -> Result<Answer<S, Triple>, Refused<S, UnitFault>>
        ensures answer { seen S.Stage result ≡ passed S.Stage.rule C.Coordinate.kind C.Coordinate.order mode t (state_of S.Stage self.stage) }
        ensures rotation_ends { mode ≡ Rotation → AtEnd (λ u. unsigned_abs u.z ≤ 1) (seen S.Stage result) }
        ensures vectoring_ends { mode ≡ Vectoring → C.Coordinate.kind ≡ LinearSystem → C.Coordinate.order ≡ linear → AtEnd (λ u. pos (unsigned_abs u.y) ≤ℤ (shifted t.x 28 +ℤ pos 27)) (seen S.Stage result) }
        ensures alike { (rule : Rule) (s : State) → s.held ≡ S.Stage.triple self.stage → bare (passed rule C.Coordinate.kind C.Coordinate.order mode t s) ≡ bare (seen S.Stage result) }
    {
        self.traverse(system, mode, t)
    }
}

// The coordinate systems told at run time: a pass in one of them, and its table. (A match, once for all programs: system and order are ghost members
// of a type, which a trait object has not.)
ghost use Rattle.std.specs.Prelude.{◌≡◌, ◌≤◌, map, pos, ◌+ℤ◌, ◌≤ℤ◌, unsigned_abs};
ghost use Rattle.stage.specs.Stage.{Rule};
ghost use Rattle.stage.specs.Word.{shifted};
ghost use Rattle.stage.specs.declared.step.System.TheVariants.{Linear as LinearSystem};
ghost use Rattle.cordic.specs.Order.{iteration};
ghost use Rattle.cordic.specs.Outcome.{State, AtEnd, bare};
ghost use Rattle.cordic.specs.Seen.{state_of, seen};
ghost use Rattle.cordic.specs.Tables.{order};
ghost use Rattle.cordic.specs.Unit.{passed};
ghost use Rattle.cordic.specs.declared.mode.Mode.TheVariants.{Rotation, Vectoring};

use super::circular::Circular;
use super::coordinate::Coordinate;
use super::faults::UnitFault;
use super::hyperbolic::Hyperbolic;
use super::linear::Linear;
use super::mode::Mode;
use super::order::Row;
use super::states::{Answer, Idle, Refused};
use stage::{Stage, System, Triple};

// The table of a system, a row for each iteration, in order.
pub fn rows_of(system: System) -> &'static [Row]
    ensures answer { map iteration result.now ≡ order system }
{
    match system {
        System::Linear => Linear.rows(),
        System::Circular => Circular.rows(),
        System::Hyperbolic => Hyperbolic.rows(),
    }
}

impl<S: Stage> Idle<S> {
    // A pass in this system.
    pub fn pass_in(
        self,
        system: System,
        mode: Mode,
        t: Triple,
    ) -> Result<Answer<S, Triple>, Refused<S, UnitFault>>
        ensures answer { seen S.Stage result ≡ passed S.Stage.rule system (order system) mode t (state_of S.Stage self.stage) }
        ensures rotation_ends { mode ≡ Rotation → AtEnd (λ u. unsigned_abs u.z ≤ 1) (seen S.Stage result) }
        ensures vectoring_ends { mode ≡ Vectoring → system ≡ LinearSystem → AtEnd (λ u. pos (unsigned_abs u.y) ≤ℤ (shifted t.x 28 +ℤ pos 27)) (seen S.Stage result) }
        ensures alike { (rule : Rule) (s : State) → s.held ≡ S.Stage.triple self.stage → bare (passed rule system (order system) mode t s) ≡ bare (seen S.Stage result) }
    {
        match system {
            System::Linear => self.pass(Linear, mode, t),
            System::Circular => self.pass(Circular, mode, t),
            System::Hyperbolic => self.pass(Hyperbolic, mode, t),
        }
    }
}

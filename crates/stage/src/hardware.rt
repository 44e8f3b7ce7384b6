// A stage at the bottom of a pile: three registers, as a kind of hardware keeps them. (`Triple` stays a type of its own: it is what callers and
// definitions name, and a type parameter in it would stand in each of their lines.)
ghost use Rattle.std.specs.Prelude.{◌≡◌, []};
ghost use Rattle.std.specs.Option.{option_map};
ghost use Rattle.std.specs.Result.{result_map_both};
ghost use Rattle.stage.specs.Word.{in_word};
ghost use Rattle.stage.specs.Step.{turned, stepped};
ghost use Rattle.stage.specs.Stage.{zeros, silent};

use super::cell::Cell;
use super::registers::{Register, Triple};
use super::shift::Shift;
use super::stage::Stage;
use super::step::{Overflow, Step, System};

#[derive(Drop)]
pub struct Hardware<C> {
    x: C,
    y: C,
    z: C,
}

impl<C: Cell> Hardware<C> {
    // A stage that holds three zeros.
    pub fn new() -> Hardware<C>
        ensures held { ⟦<Hardware<C> as Stage>⟧.triple result ≡ zeros }
    {
        Hardware {
            x: C::new(0),
            y: C::new(0),
            z: C::new(0),
        }
    }

    // The arms are the rule as it is written: m is 0, +1 or −1. (The three clauses speak of a new cell by what it keeps, which is its meaning.)
    fn next_x(&self, s: Step) -> Option<C>
        ensures answer { option_map C.kept result ≡ in_word (turned s (⟦<Hardware<C> as Stage>⟧.triple self.now)).x }
    {
        match s.system {
            System::Linear => Some(C::new(self.x.word())),
            System::Circular => self.x.add(self.y, s.shift, s.direction.opposite()),
            System::Hyperbolic => self.x.add(self.y, s.shift, s.direction),
        }
    }

    fn next_y(&self, s: Step) -> Option<C>
        ensures answer { option_map C.kept result ≡ in_word (turned s (⟦<Hardware<C> as Stage>⟧.triple self.now)).y }
    {
        self.y.add(self.x, s.shift, s.direction)
    }

    fn next_z(&self, s: Step) -> Option<C>
        ensures answer { option_map C.kept result ≡ in_word (turned s (⟦<Hardware<C> as Stage>⟧.triple self.now)).z }
    {
        self.z
            .add(C::new(s.entry), Shift::NONE, s.direction.opposite())
    }

    // The refusal that names this register.
    fn overflow(&self, register: Register) -> Overflow
        ensures answer { result ≡ record { register = register; kept = ⟦<Hardware<C> as Stage>⟧.triple self.now } }
    {
        Overflow {
            register,
            kept: self.read(),
        }
    }

    // All three registers from the old values, or the first that would leave the word, in the order x, y, z.
    fn next(&self, s: Step) -> Result<Hardware<C>, Overflow>
        ensures answer { result_map_both ⟦<Hardware<C> as Stage>⟧.triple (λ refused. refused) result ≡ stepped s (⟦<Hardware<C> as Stage>⟧.triple self.now) }
    {
        Ok(Hardware {
            x: self.next_x(s).ok_or(self.overflow(Register::X))?,
            y: self.next_y(s).ok_or(self.overflow(Register::Y))?,
            z: self.next_z(s).ok_or(self.overflow(Register::Z))?,
        })
    }
}

impl<C: Cell> Stage for Hardware<C> {
    const TICKS: u32 = C::TICKS;

    ghost TICKS = { C.TICKS };

    ghost triple = { λ h. record { x = C.kept h.x; y = C.kept h.y; z = C.kept h.z } };

    ghost notes = { λ _. [] };

    ghost rule = { silent };

    ghost ticking = { C.ticking };

    fn load(&mut self, t: Triple) {
        *self = Hardware {
            x: C::new(t.x),
            y: C::new(t.y),
            z: C::new(t.z),
        };
    }

    fn step(&mut self, s: Step) -> Result<(), Overflow> {
        *self = self.next(s)?;
        Ok(())
    }

    fn read(&self) -> Triple {
        Triple {
            x: self.x.word(),
            y: self.y.word(),
            z: self.z.word(),
        }
    }
}

// A stage is three calls: load, step and read. Its meaning is a triple of registers and notes.
ghost use Rattle.std.specs.Prelude.{◌≡◌, ℕ, ◌*◌, ◌≤◌, List, ℤ};
ghost use Rattle.stage.specs.Stage.{loads, Rule, answered, held_after, noted_after};
ghost use Rattle.stage.specs.Step.{stepped};
ghost use Rattle.stage.specs.declared.registers.Triple.{Triple};

use super::registers::Triple;
use super::step::{Overflow, Step};

pub trait Stage {
    // Ticks in one step, a constant of the kind.
    const TICKS: u32;

    ghost TICKS: { ℕ };

    // the registers that it holds
    ghost triple: { Self → Triple };

    // notes: whole numbers that the kind keeps beside the registers
    ghost notes: { Self → List ℤ };

    // what a load or an accepted step makes of the notes
    ghost rule: { Rule };

    // Replaces the triple.
    fn load(&mut self, t: Triple)
        ensures held { triple self.new ≡ t }
        ensures noted { notes self.new ≡ rule (loads t) (triple self.old) (notes self.old) };

    // Does one step, or refuses it where a register would leave the word, and then changes nothing.
    fn step(&mut self, s: Step) -> Result<(), Overflow>
        ensures answer { result ≡ answered (stepped s (triple self.old)) }
        ensures held { triple self.new ≡ held_after (triple self.old) (stepped s (triple self.old)) }
        ensures noted { notes self.new ≡ noted_after rule s (triple self.old) (notes self.old) (stepped s (triple self.old)) };

    // Gives the triple, and changes nothing.
    fn read(&self) -> Triple
        ensures answer { result ≡ triple self.now };

    // Ticks in this many steps.
    final fn ticks_in(steps: u32) -> u64
        ensures answer { result ≡ steps * TICKS }
    {
        u64::from(steps) * u64::from(Self::TICKS)
    }

    ghost ticking: { 1 ≤ TICKS };
}

// The bit-serial kind of hardware: one bit of each register in a tick, one step in 32.
ghost use Rattle.std.specs.Prelude.{◌≡◌, ◌/◌, ◌%◌, ◌^◌, ◌<◌};
ghost use Rattle.std.proofs.Common.{to_z, rules};
ghost use Rattle.std.specs.Int.{w32};
ghost use Rattle.stage.specs.Adder.{wide};

use super::adder::add_serially;
use super::cell::Cell;
use super::hardware::Hardware;
use super::shift::Shift;
use super::step::Direction;

// A register kept as 32 bits in a word, and its sign bit, saved before a step reads it.
#[derive(Clone, Copy)]
pub struct Bits {
    pub bits: u32,
    sign: u32,
    ghost saved: { sign ≡ bits / 2 ^ 31 },
}

pub type BitSerial = Hardware<Bits>;

impl Bits {
    // The bit at a place: the register's own up to place 31, and beyond it the saved sign bit.
    pub(crate) fn bit(self, place: u32) -> u32
        requires { place < 64 }
        ensures answer { result ≡ wide self.bits / 2 ^ place % 2 }
    {
        if place <= 31 {
            (self.bits >> place) & 1
        } else {
            self.sign
        }
    }
}

impl Cell for Bits {
    const TICKS: u32 = 32;

    ghost TICKS = { 32 };

    ghost kept = { λ b. to_z w32 b.bits };

    ghost ticking = { Prim.search rules };

    fn new(word: i32) -> Bits {
        let bits = word.cast_unsigned();
        Bits {
            bits,
            sign: bits >> 31,
        }
    }

    fn word(self) -> i32 {
        self.bits.cast_signed()
    }

    fn add(self, b: Bits, s: Shift, d: Direction) -> Option<Bits> {
        let sum = add_serially::<1, { Self::TICKS }>(self.bits, b, s, d)?;
        Some(Bits::new(sum))
    }
}

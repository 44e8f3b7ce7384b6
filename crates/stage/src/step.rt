// What a step is told, and what it comes to.
ghost use Rattle.std.specs.Prelude.{◌≡◌, Some};
ghost use Rattle.std.specs.Result.{result_ok};
ghost use Rattle.stage.specs.Names.{named, name_of_system, system_names};
ghost use Rattle.stage.specs.Direction.{opposed, is_negative};

use super::names::UnknownName;
use super::registers::{Register, Triple};
use super::shift::Shift;
use std::fmt;
use std::str::FromStr;

// The coordinate system of a step: m is 0, +1 or −1.
#[derive(Clone, Copy, PartialEq, Eq, Debug)]
pub enum System {
    Linear,
    Circular,
    Hyperbolic,
}

// (Each enum reads and prints its own names: a function over a table of them would have as many lines.)
impl FromStr for System {
    type Err = UnknownName;

    ghost from_str_gives = { λ word r. result_ok r ≡ named system_names word };

    fn from_str(word: &str) -> Result<System, UnknownName> {
        match word {
            "linear" => Ok(System::Linear),
            "circular" => Ok(System::Circular),
            "hyperbolic" => Ok(System::Hyperbolic),
            _ => Err(UnknownName),
        }
    }
}

impl System {
    // Its name. (Beside the `Display`, whose law speaks of a text that could be written: a name is always there.)
    pub fn name(self) -> &'static str
        ensures answer { result.now ≡ name_of_system self }
    {
        match self {
            System::Linear => "linear",
            System::Circular => "circular",
            System::Hyperbolic => "hyperbolic",
        }
    }
}

impl fmt::Display for System {
    ghost output = { λ system. Some (name_of_system system) };

    fn fmt<W: fmt::Write>(&self, f: &mut fmt::Formatter<W>) -> fmt::Result {
        f.write_str(self.name())
    }
}

// The direction of a step: d is +1 or −1.
#[derive(Clone, Copy, PartialEq, Eq, Debug)]
pub enum Direction {
    Plus,
    Minus,
}

impl Direction {
    // −d
    pub fn opposite(self) -> Direction
        ensures answer { result ≡ opposed self }
    {
        match self {
            Direction::Plus => Direction::Minus,
            Direction::Minus => Direction::Plus,
        }
    }

    pub(crate) fn is_minus(self) -> bool
        ensures answer { result ≡ is_negative self }
    {
        match self {
            Direction::Plus => false,
            Direction::Minus => true,
        }
    }
}

// The entry is any word.
#[derive(Clone, Copy, PartialEq, Eq, Debug)]
pub struct Step {
    pub system: System,
    pub direction: Direction,
    pub shift: Shift,
    pub entry: i32,
}

// A refused step: the first register that would leave the word, and the triple that is kept.
#[derive(Clone, Copy, PartialEq, Eq, Debug)]
pub struct Overflow {
    pub register: Register,
    pub kept: Triple,
}

// The faults of the unit. A stage's fault sits inside it.
ghost use Rattle.std.specs.Prelude.{◌≡◌, Some};
ghost use Rattle.cordic.specs.Names.{sentence_of};

use super::mode::Mode;
use stage::{Overflow, Register, System, Triple};
use std::fmt;

#[derive(Clone, Copy, PartialEq, Eq, Debug)]
pub enum Cause {
    // no choice of directions reaches the angle
    Unreachable,
    // vectoring cannot start there
    BadStart,
    // a register would leave the word at this step, counted from 1
    Overflowed { step: u32, overflow: Overflow },
}

impl Cause {
    // What it means, in a sentence.
    pub fn sentence(self) -> &'static str
        ensures answer { result.now ≡ sentence_of self }
    {
        match self {
            Cause::Unreachable => "no choice of directions brings z within one unit of zero",
            Cause::BadStart => "vectoring cannot start from this x and y",
            Cause::Overflowed { .. } => "a register would leave the word",
        }
    }
}

impl fmt::Display for Cause {
    ghost output = { λ cause. Some (sentence_of cause) };

    fn fmt<W: fmt::Write>(&self, f: &mut fmt::Formatter<W>) -> fmt::Result {
        f.write_str(self.sentence())
    }
}

// Steps are those accepted before the fault, from the start of the call that it ends.
#[derive(Clone, Copy, PartialEq, Eq, Debug)]
pub struct UnitFault {
    pub system: System,
    pub mode: Mode,
    pub cause: Cause,
    pub steps: u32,
}

// All that a fault says, by its number. The numbers are fixed for those outside, in printouts and in C; inside, the fault is the enum above. (Its
// fields stand one by one, as they are read there.)
#[derive(Clone, Copy, PartialEq, Eq, Debug)]
pub struct Report {
    pub number: u8,
    pub system: System,
    pub mode: Mode,
    pub step: Option<u32>,
    pub register: Option<Register>,
    pub kept: Option<Triple>,
    pub steps: u32,
}

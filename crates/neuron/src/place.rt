// A record of the plan or of standard input, by its position from 0.
ghost use Rattle.std.specs.Prelude.{Some};
ghost use Rattle.neuron.specs.Refusals.{place_text};

use std::fmt;

#[derive(Clone, Copy, PartialEq, Eq, Debug)]
pub enum Place {
    Plan(u32),
    Input(u32),
}

impl fmt::Display for Place {
    ghost output = { λ p. Some (place_text p) };

    fn fmt<W: fmt::Write>(&self, f: &mut fmt::Formatter<W>) -> fmt::Result {
        match self {
            Place::Plan(position) => write!(f, "p{position}"),
            Place::Input(position) => write!(f, "s{position}"),
        }
    }
}

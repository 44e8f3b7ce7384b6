// Three registers of a line, and a dash for each where there are none, which a field's one dash would not be.
use stage::Triple;
use std::fmt;

#[derive(Clone, Copy)]
pub struct Registers(pub Option<Triple>);

impl fmt::Display for Registers {
    fn fmt<W: fmt::Write>(&self, f: &mut fmt::Formatter<W>) -> fmt::Result {
        match self.0 {
            Some(Triple { x, y, z }) => write!(f, "{x} {y} {z}"),
            None => write!(f, "- - -"),
        }
    }
}

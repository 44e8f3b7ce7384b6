// The three registers of a stage. Each is a word: 32 bits, signed, 28 of them fraction bits.
ghost use Rattle.std.specs.Prelude.{◌≡◌, Some};
ghost use Rattle.stage.specs.Names.{name_of_register};

use std::fmt;

#[derive(Clone, Copy, Default, PartialEq, Eq, Debug)]
pub struct Triple {
    pub x: i32,
    pub y: i32,
    pub z: i32,
}

#[derive(Clone, Copy, PartialEq, Eq, Debug)]
pub enum Register {
    X,
    Y,
    Z,
}

impl Register {
    // Its name.
    pub fn name(self) -> &'static str
        ensures answer { result.now ≡ name_of_register self }
    {
        match self {
            Register::X => "x",
            Register::Y => "y",
            Register::Z => "z",
        }
    }
}

impl fmt::Display for Register {
    ghost output = { λ r. Some (name_of_register r) };

    fn fmt<W: fmt::Write>(&self, f: &mut fmt::Formatter<W>) -> fmt::Result {
        f.write_str(self.name())
    }
}

// The kinds of hardware, by name.
ghost use Rattle.std.specs.Prelude.{◌≡◌, Some};
ghost use Rattle.std.specs.Result.{result_ok};
ghost use Rattle.stage.specs.Names.{named, name_of_kind, kind_names};

use super::names::UnknownName;
use std::fmt;
use std::str::FromStr;

#[derive(Clone, Copy, PartialEq, Eq, Debug)]
pub enum Kind {
    Parallel,
    BitSerial,
}

impl FromStr for Kind {
    type Err = UnknownName;

    ghost from_str_gives = { λ word r. result_ok r ≡ named kind_names word };

    fn from_str(word: &str) -> Result<Kind, UnknownName> {
        match word {
            "parallel" => Ok(Kind::Parallel),
            "bit-serial" => Ok(Kind::BitSerial),
            _ => Err(UnknownName),
        }
    }
}

impl Kind {
    // Its name.
    pub fn name(self) -> &'static str
        ensures answer { result.now ≡ name_of_kind self }
    {
        match self {
            Kind::Parallel => "parallel",
            Kind::BitSerial => "bit-serial",
        }
    }
}

impl fmt::Display for Kind {
    ghost output = { λ kind. Some (name_of_kind kind) };

    fn fmt<W: fmt::Write>(&self, f: &mut fmt::Formatter<W>) -> fmt::Result {
        f.write_str(self.name())
    }
}

// The two modes of the unit: rotation drives z to zero, vectoring y.
ghost use Rattle.std.specs.Prelude.{◌≡◌, Some};
ghost use Rattle.std.specs.Result.{result_ok};
ghost use Rattle.stage.specs.Names.{named};
ghost use Rattle.cordic.specs.Mode.{sign as sign_of, directed};
ghost use Rattle.cordic.specs.Names.{name_of_mode, mode_names};

use stage::{Direction, Triple, UnknownName};
use std::fmt;
use std::str::FromStr;

#[derive(Clone, Copy, PartialEq, Eq, Debug)]
pub enum Mode {
    Rotation,
    Vectoring,
}

impl FromStr for Mode {
    type Err = UnknownName;

    ghost from_str_gives = { λ word r. result_ok r ≡ named mode_names word };

    fn from_str(word: &str) -> Result<Mode, UnknownName> {
        match word {
            "rotation" => Ok(Mode::Rotation),
            "vectoring" => Ok(Mode::Vectoring),
            _ => Err(UnknownName),
        }
    }
}

impl Mode {
    // Its name. (Beside the `Display`, as for the names of `stage`.)
    pub fn name(self) -> &'static str
        ensures answer { result.now ≡ name_of_mode self }
    {
        match self {
            Mode::Rotation => "rotation",
            Mode::Vectoring => "vectoring",
        }
    }
}

impl fmt::Display for Mode {
    ghost output = { λ mode. Some (name_of_mode mode) };

    fn fmt<W: fmt::Write>(&self, f: &mut fmt::Formatter<W>) -> fmt::Result {
        f.write_str(self.name())
    }
}

// The sign of a word; that of 0 is +1.
fn sign(v: i32) -> Direction
    ensures answer { result ≡ sign_of v }
{
    if v < 0 {
        Direction::Minus
    } else {
        Direction::Plus
    }
}

impl Mode {
    // The direction of the next iteration.
    pub fn direction(self, t: Triple) -> Direction
        ensures answer { result ≡ directed self t }
    {
        match self {
            Mode::Rotation => sign(t.z),
            Mode::Vectoring => {
                if sign(t.x) == sign(t.y) {
                    Direction::Minus
                } else {
                    Direction::Plus
                }
            }
        }
    }
}

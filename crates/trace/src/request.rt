// A request: what to run, and what can be wrong with its words.
ghost use Rattle.std.specs.Prelude.{◌≡◌, Some};
ghost use Rattle.trace.specs.declared.request.RequestFault.TheVariants.{Memory};
ghost use Rattle.trace.specs.Request.{wanted_name, wanted_choices};

use cordic::Mode;
use stage::{Kind, System, Triple};
use std::alloc::AllocError;
use std::fmt;

#[derive(Clone, Copy)]
pub struct Request {
    pub system: System,
    pub mode: Mode,
    pub start: Triple,
    pub kind: Kind,
    // a setting that is on or off, and goes with no value
    pub probe: bool,
}

// What a word of a request should be.
#[derive(Clone, Copy)]
pub enum Wanted {
    System,
    Mode,
    X,
    Y,
    Z,
    Kind,
    Setting,
}

impl fmt::Display for Wanted {
    ghost output = { λ wanted. Some (wanted_name wanted) };

    fn fmt<W: fmt::Write>(&self, f: &mut fmt::Formatter<W>) -> fmt::Result {
        f.write_str(self.name())
    }
}

impl Wanted {
    // What it is called. (Beside the `Display`, as for the names of `stage`.)
    fn name(self) -> &'static str
        ensures answer { result.now ≡ wanted_name self }
    {
        match self {
            Wanted::System => "coordinate system",
            Wanted::Mode => "mode",
            Wanted::X => "number for x",
            Wanted::Y => "number for y",
            Wanted::Z => "number for z",
            Wanted::Kind => "stage",
            Wanted::Setting => "option",
        }
    }

    // What it can be. (A method beside the `Display` of its name, since a type has one.)
    fn choices(self) -> &'static str
        ensures answer { result.now ≡ wanted_choices self }
    {
        match self {
            Wanted::System => "linear, circular, hyperbolic",
            Wanted::Mode => "rotation, vectoring",
            Wanted::X | Wanted::Y | Wanted::Z => "-2147483648 to 2147483647",
            Wanted::Kind => "parallel, bit-serial",
            Wanted::Setting => "--stage, --probe, --help",
        }
    }
}

// Why a word does not fit. (An error enum: `None` of an `Option` would have to mean one word too many.)
#[derive(Clone, Copy)]
pub enum Misfit {
    Not(Wanted),
    Extra,
}

#[derive(Drop)]
pub enum RequestFault {
    Word { word: String, misfit: Misfit },
    Missing(Wanted),
    Memory,
}

// (The kit's derive of `From` has no `from_gives`, which the contract of `read_request` needs.)
impl From<AllocError> for RequestFault {
    ghost from_gives = { λ _ r. r ≡ Memory };

    fn from(_e: AllocError) -> RequestFault {
        RequestFault::Memory
    }
}

impl fmt::Display for RequestFault {
    fn fmt<W: fmt::Write>(&self, f: &mut fmt::Formatter<W>) -> fmt::Result {
        match self {
            RequestFault::Word { word, misfit } => match misfit {
                Misfit::Not(wanted) => {
                    write!(f, "'{word}' is no {wanted} ({})", wanted.choices())
                }
                Misfit::Extra => write!(f, "'{word}' is one word too many (SYSTEM MODE X Y Z)"),
            },
            RequestFault::Missing(wanted) => {
                write!(f, "no {wanted} is given ({})", wanted.choices())
            }
            RequestFault::Memory => write!(f, "no memory is left"),
        }
    }
}

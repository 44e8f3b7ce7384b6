// The printout as comma-separated values: a line for each triple, the last of them on how the pass ended. No request asks for it yet.
ghost use Rattle.std.specs.Prelude.{◌≡◌, Some};
ghost use Rattle.trace.specs.Csv.{factor_text, fields_text, line_text};

use super::accepted::Accepted;
use cordic::UnitFault;
use stage::{Direction, Triple};
use std::{fmt, io};

fn factor(direction: Direction) -> &'static str
    ensures answer { result.now ≡ factor_text direction }
{
    match direction {
        Direction::Plus => "1",
        Direction::Minus => "-1",
    }
}

// The fields x, y and z, empty where there is no triple.
#[derive(Clone, Copy)]
pub struct Fields(Option<Triple>);

impl fmt::Display for Fields {
    ghost output = { λ s. Some (fields_text s.0) };

    fn fmt<W: fmt::Write>(&self, f: &mut fmt::Formatter<W>) -> fmt::Result {
        match self.0 {
            Some(Triple { x, y, z }) => write!(f, "{x},{y},{z}"),
            None => write!(f, ",,"),
        }
    }
}

#[derive(Clone, Copy)]
pub enum Line {
    Start(Triple),
    // an accepted step, and the triple after it
    Step(Accepted, Triple),
    End(Triple),
    // with the triple that is kept, where one is
    Refused(UnitFault),
}

impl fmt::Display for Line {
    ghost output = { λ l. Some (line_text l) };

    fn fmt<W: fmt::Write>(&self, f: &mut fmt::Formatter<W>) -> fmt::Result {
        match *self {
            Line::Start(t) => write!(f, "start,,,,{}", Fields(Some(t))),
            Line::Step(step, after) => write!(
                f,
                "{},{},{},{},{}",
                step.number,
                step.shift,
                step.entry,
                factor(step.direction),
                Fields(Some(after))
            ),
            Line::End(t) => write!(f, "result,,,,{}", Fields(Some(t))),
            Line::Refused(fault) => {
                let report = fault.report();
                write!(f, "refused {},,,,{}", report.number, Fields(report.kept))
            }
        }
    }
}

pub(crate) fn print_heads(out: &impl Print) -> io::Result<()> {
    println!(out; "row,shift,entry,d,x,y,z")
}

pub(crate) fn print_line(out: &impl Print, line: Line) -> io::Result<()> {
    println!(out; "{line}")
}

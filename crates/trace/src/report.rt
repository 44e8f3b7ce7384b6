// The printout: rows of registers under their columns, and how a pass ended.
ghost use Rattle.std.specs.Prelude.{◌≡◌};
ghost use Rattle.trace.specs.Marks.{mark_label, sign_code};

use super::accepted::Accepted;
use super::figures::Fraction;
use super::request::Request;
use cordic::{Cause, UnitFault};
use stage::{Direction, Register, Triple};
use std::{fmt, io};

// What stands left of a register, in 29 columns.
#[derive(Clone, Copy)]
pub enum Mark {
    Blank,
    Start,
    Step(Accepted),
    End,
    Kept,
    Before,
}

// (A direction is a sign here and a factor in the lines of values, so that neither is its `Display`.)
fn sign(direction: Direction) -> char
    ensures answer { result ≡ sign_code direction }
{
    match direction {
        Direction::Plus => '+',
        Direction::Minus => '-',
    }
}

impl Mark {
    // (A method, since the `Display` of a mark is its whole column.)
    fn label(self) -> &'static str
        ensures answer { result.now ≡ mark_label self }
    {
        match self {
            Mark::Blank => "",
            Mark::Start => "start",
            Mark::Step(_) => "",
            Mark::End => "result",
            Mark::Kept => "kept",
            Mark::Before => "before",
        }
    }
}

impl fmt::Display for Mark {
    fn fmt<W: fmt::Write>(&self, f: &mut fmt::Formatter<W>) -> fmt::Result {
        match *self {
            Mark::Step(step) => write!(
                f,
                "{:>6}  {:>5}  {:>9}  {}  ",
                step.number,
                step.shift,
                step.entry,
                sign(step.direction)
            ),
            mark => write!(f, "{:<29}", mark.label()),
        }
    }
}

fn print_row(out: &impl Print, mark: Mark, register: Register, raw: i32) -> io::Result<()> {
    println!(out;
        "{mark}{register}  {raw:>11}  {:08x}  {}",
        raw.cast_unsigned(),
        Fraction::of(raw)
    )
}

// Three rows, the first of them marked.
pub(crate) fn print_triple(out: &impl Print, mark: Mark, t: Triple) -> io::Result<()> {
    print_row(out, mark, Register::X, t.x)?;
    print_row(out, Mark::Blank, Register::Y, t.y)?;
    print_row(out, Mark::Blank, Register::Z, t.z)
}

pub(crate) fn print_title(out: &impl Print, request: &Request) -> io::Result<()> {
    let probe = if request.probe { " under a probe" } else { "" };
    println!(out;
        "{} {} on the {} stage{probe}\n",
        request.system, request.mode, request.kind
    )?;
    println!(out; "  step  shift      entry  d             raw       hex         value")
}

pub(crate) fn print_result(
    out: &impl Print,
    end: Triple,
    steps: u32,
    ticks: u64,
) -> io::Result<()> {
    println!(out; "")?;
    print_triple(out, Mark::End, end)?;
    println!(out; "steps     {steps}")?;
    println!(out; "ticks     {ticks}")
}

pub(crate) fn print_refusal(out: &impl Print, fault: UnitFault) -> io::Result<()> {
    println!(out; "\nrefused with {}: {}", fault.report().number, fault.cause)?;
    println!(out; "system    {}", fault.system)?;
    println!(out; "mode      {}", fault.mode)?;
    println!(out; "steps     {} accepted before", fault.steps)?;
    if let Cause::Overflowed { step, overflow } = fault.cause {
        println!(out; "step      {step} refused")?;
        println!(out; "register  {}", overflow.register)?;
        print_triple(out, Mark::Kept, overflow.kept)?;
    }
    Ok(())
}

pub(crate) fn print_probe(
    out: &impl Print,
    accepted: u32,
    before: Option<Triple>,
) -> io::Result<()> {
    println!(out; "\nprobe")?;
    println!(out; "accepted  {accepted}")?;
    match before {
        Some(t) => print_triple(out, Mark::Before, t),
        None => println!(out; "before    none"),
    }
}

// The program `cases`: runs each request of standard input on two stages, and prints a line for each of the two.
#![tactic(auto)]

mod digest;
mod done;
mod left;
mod outcome;
mod pass;
mod places;
mod plan;
mod reader;
mod recorded;
mod registers;
mod request;
mod run_end;
mod runs;
mod stages;
mod unit;

use done::Done;
use reader::read_request;
use request::{Request, RequestFault};
use stage::{BitSerial, Kind, Parallel};
use stages::run_on;
use std::alloc::Global;
use std::{fmt, io};

// Why the program ends with status 1. Lines are counted from 1. (By hand, as in `trace`: a derive would ask for a message of each variant as well.)
#[derive(Drop)]
enum Failure {
    Request { line: usize, fault: RequestFault },
    Io(io::Error),
}

impl From<io::Error> for Failure {
    fn from(e: io::Error) -> Failure {
        Failure::Io(e)
    }
}

// A `main` that returns an error has it reported by its `Debug` form.
impl fmt::Debug for Failure {
    fn fmt<W: fmt::Write>(&self, f: &mut fmt::Formatter<W>) -> fmt::Result {
        match self {
            Failure::Request { line, fault } => write!(f, "line {line}: {fault}"),
            Failure::Io(e) => write!(f, "{e}"),
        }
    }
}

fn print_line(out: &impl Print, number: usize, kind: Kind, done: Done) -> io::Result<()> {
    println!(out; "{number} {kind} {done}")
}

fn print_lines(out: &impl Print, heap: Global, number: usize, request: &Request) -> io::Result<()> {
    let parallel = run_on(heap, Parallel::new(), request)?;
    print_line(out, number, Kind::Parallel, parallel)?;
    let serial = run_on(heap, BitSerial::new(), request)?;
    print_line(out, number, Kind::BitSerial, serial)
}

fn run(rt: &HostRuntime) -> Result<(), Failure> {
    let heap = rt.alloc();
    let text = io::read_to_string(heap, rt.stdin())?;
    for (i, line) in text.as_str().lines().enumerate() {
        let number = i.saturating_add(1);
        let request = read_request(heap, line).map_err(|fault| Failure::Request {
            line: number,
            fault,
        })?;
        print_lines(rt, heap, number, &request)?;
    }
    Ok(())
}

fn main(rt: HostRuntime) -> Result<(), Failure> {
    run(&rt)
}

// The program `trace`: runs one request and prints every step of it.
#![tactic(auto)]

mod accepted;
mod csv;
mod figures;
mod help;
mod pass;
mod reader;
mod report;
mod request;
#[cfg(test)]
mod tests;

use help::HELP;
use pass::print_trace;
use reader::{asks_help, read_request};
use request::RequestFault;
use std::alloc::Global;
use std::{env, fmt, io};

// Why the program ends with status 1. (By hand, as `cases` has its own: a derive of the two impls would ask for a message of each variant as well.)
#[derive(Drop)]
enum Failure {
    Request(RequestFault),
    Io(io::Error),
}

impl From<io::Error> for Failure {
    fn from(e: io::Error) -> Failure {
        Failure::Io(e)
    }
}

impl From<RequestFault> for Failure {
    fn from(e: RequestFault) -> Failure {
        Failure::Request(e)
    }
}

// A `main` that returns an error has it reported by its `Debug` form.
impl fmt::Debug for Failure {
    fn fmt<W: fmt::Write>(&self, f: &mut fmt::Formatter<W>) -> fmt::Result {
        match self {
            Failure::Request(e) => write!(f, "{e}; see --help"),
            Failure::Io(e) => write!(f, "{e}"),
        }
    }
}

// The arguments, or where there are none the words of the first line of standard input.
fn words(rt: &HostRuntime, heap: Global) -> io::Result<Vec<String>> {
    let words: Vec<String> = env::args(rt)?.skip(1).collect(heap)?;
    if !words.is_empty() {
        return Ok(words);
    }
    let mut line = String::new(heap);
    rt.read_line(&mut line)?;
    let words = line
        .as_str()
        .split_whitespace()
        .map(|word| String::from_str(heap, word))
        .try_collect(heap)?;
    Ok(words)
}

fn run(rt: &HostRuntime) -> Result<(), Failure> {
    let heap = rt.alloc();
    let words = words(rt, heap)?;
    if asks_help(words.as_slice()) {
        rt.print(HELP)?;
        return Ok(());
    }
    let request = read_request(heap, words.as_slice())?;
    print_trace(rt, request)?;
    Ok(())
}

fn main(rt: HostRuntime) -> Result<(), Failure> {
    run(&rt)
}

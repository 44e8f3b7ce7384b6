// The program `neuron`: runs the plan in `plan.bin` on the sample records of standard input.
#![tactic(auto)]

mod input;
mod outputs;
mod place;
mod printout;
mod refusal;
#[cfg(test)]
mod tests;
mod verdict;

use printout::printout;
use std::alloc::Global;
use std::fs::File;
use std::io;
use std::io::{ErrorKind, Read};

// One byte more than the longest plan.
const PLAN_LIMIT: u64 = 65529;

// The first bytes of `plan.bin`; none where there is no such file.
fn plan_bytes(rt: &HostRuntime, heap: Global) -> io::Result<Vec<u8>> {
    let mut bytes = Vec::new(heap);
    let file = match File::open(rt, "plan.bin") {
        Ok(file) => file,
        Err(e) if e.kind() == ErrorKind::NotFound => return Ok(bytes),
        Err(e) => return Err(e),
    };
    file.take(PLAN_LIMIT).read_to_end(&mut bytes)?;
    Ok(bytes)
}

fn run(rt: &HostRuntime) -> io::Result<()> {
    let heap = rt.alloc();
    let plan = plan_bytes(rt, heap)?;
    let mut input = Vec::new(heap);
    rt.stdin()
        // widens: a `usize` has no `From` into a `u64`
        .take(input::LIMIT as u64)
        .read_to_end(&mut input)?;
    let text = printout(heap, plan.as_slice(), input.as_slice())?;
    rt.print(text.as_str())
}

fn main(rt: HostRuntime) -> io::Result<()> {
    run(&rt)
}

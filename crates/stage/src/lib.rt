// A stage: three registers, the shift-and-add step, and the kinds of hardware that make it.
#![tactic(auto)]

mod adder;
mod bits;
mod cell;
mod hardware;
mod kind;
mod names;
mod parallel;
mod probe;
mod recorder;
mod registers;
mod shift;
mod stage;
mod step;
#[cfg(test)]
mod tests;

pub use bits::BitSerial;
pub use kind::Kind;
pub use names::UnknownName;
pub use parallel::Parallel;
pub use probe::Probe;
pub use recorder::Recorder;
pub use registers::{Register, Triple};
pub use shift::Shift;
pub use stage::Stage;
pub use step::{Direction, Overflow, Step, System};

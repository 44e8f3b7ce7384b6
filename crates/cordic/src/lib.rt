// The CORDIC unit over any stage: coordinate systems with their orders of iterations, and load, run and read-out.
#![tactic(auto)]

mod circular;
mod coordinate;
mod faults;
mod finished;
mod halted;
mod hyperbolic;
mod idle;
mod linear;
mod loaded;
mod mode;
mod order;
mod pass;
mod refusal;
mod reports;
mod shown;
mod states;
mod systems;

pub use circular::Circular;
pub use coordinate::Coordinate;
pub use faults::{Cause, Report, UnitFault};
pub use hyperbolic::Hyperbolic;
pub use linear::Linear;
pub use mode::Mode;
pub use order::{Iteration, Row};
pub use shown::rows_shown;
pub use states::{Answer, Finished, Idle, Loaded, Refused};
pub use systems::rows_of;

// The C interface: runs of a network, a check of a plan and one rotation, as functions that C can call.
#![tactic(auto)]

mod converters;
mod fields;
mod plans;
mod records;
mod reports;
mod rotations;
mod runs;
mod told;

pub use converters::{cordic_run_converter_bit_serial, cordic_run_converter_parallel};
pub use plans::cordic_check_plan;
pub use records::{cordic_run_bit_serial, cordic_run_parallel};
pub use reports::{PassReport, PlanReport, RunReport, UnitReport};
pub use rotations::cordic_rotate;

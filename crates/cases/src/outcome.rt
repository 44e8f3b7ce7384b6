// What a request came to: the end of a pass or of a run.
use super::registers::Registers;
use super::run_end::RunEnd;
use super::unit::Unit;
use cordic::UnitFault;
use stage::Triple;
use std::fmt;

#[derive(Drop)]
pub enum Outcome {
    Ended {
        value: Triple,
        steps: u32,
        ticks: u64,
    },
    Refused(UnitFault),
    Ran(RunEnd),
}

impl fmt::Display for Outcome {
    fn fmt<W: fmt::Write>(&self, f: &mut fmt::Formatter<W>) -> fmt::Result {
        match self {
            Outcome::Ended {
                value,
                steps,
                ticks,
            } => write!(
                f,
                "ended {} steps {steps} ticks {ticks}",
                Registers(Some(*value)),
            ),
            Outcome::Refused(fault) => write!(f, "refused {}", Unit(*fault)),
            Outcome::Ran(end) => write!(f, "{end}"),
        }
    }
}

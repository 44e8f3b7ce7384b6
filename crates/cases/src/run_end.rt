// The end of a run: the outputs or the refusal, what it cost, and the places as they are after it, where what a run hands back has the unit.
use super::unit::Unit;
use fields::Field;
use network::{NetworkFault, NeuronFault, Report};
use std::fmt;

#[derive(Drop)]
pub struct RunEnd {
    pub outcome: Result<usize, NetworkFault>,
    pub steps: u32,
    pub ticks: u64,
    pub places: Vec<i32>,
}

// Where a refused run was refused.
#[derive(Clone, Copy)]
struct Refusal(Report);

impl fmt::Display for Refusal {
    fn fmt<W: fmt::Write>(&self, f: &mut fmt::Formatter<W>) -> fmt::Result {
        let report = self.0;
        write!(
            f,
            "refused {} layer {} neuron {} input {} record {}",
            report.number,
            Field(report.layer),
            Field(report.neuron),
            Field(report.input),
            Field(report.record),
        )
    }
}

// What only a fault of the arithmetic carries.
#[derive(Clone, Copy)]
struct Inner(NeuronFault);

impl fmt::Display for Inner {
    fn fmt<W: fmt::Write>(&self, f: &mut fmt::Formatter<W>) -> fmt::Result {
        write!(
            f,
            "neuron-steps {} unit {}",
            self.0.steps,
            Unit(self.0.unit)
        )
    }
}

// The steps, the ticks and the places.
#[derive(Clone, Copy)]
struct Cost<'a>(&'a RunEnd);

impl<'a> fmt::Display for Cost<'a> {
    fn fmt<W: fmt::Write>(&self, f: &mut fmt::Formatter<W>) -> fmt::Result {
        write!(f, "steps {} ticks {} places", self.0.steps, self.0.ticks)?;
        for place in &self.0.places {
            write!(f, " {place}")?;
        }
        Ok(())
    }
}

impl fmt::Display for RunEnd {
    fn fmt<W: fmt::Write>(&self, f: &mut fmt::Formatter<W>) -> fmt::Result {
        let cost = Cost(self);
        match self.outcome {
            Ok(count) => write!(f, "outputs {count} {cost}"),
            Err(fault) => {
                let report = fault.report();
                write!(f, "{} {cost}", Refusal(report))?;
                match report.inner {
                    Some(inner) => write!(f, " {}", Inner(inner)),
                    None => Ok(()),
                }
            }
        }
    }
}

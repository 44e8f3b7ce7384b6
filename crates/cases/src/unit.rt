// What a fault of the unit carries, in a line.
use super::registers::Registers;
use cordic::UnitFault;
use fields::Field;
use std::fmt;

#[derive(Clone, Copy)]
pub struct Unit(pub UnitFault);

impl fmt::Display for Unit {
    fn fmt<W: fmt::Write>(&self, f: &mut fmt::Formatter<W>) -> fmt::Result {
        let report = self.0.report();
        write!(
            f,
            "{} {} {} steps {} step {} register {} kept {}",
            report.number,
            report.system,
            report.mode,
            report.steps,
            Field(report.step),
            Field(report.register),
            Registers(report.kept),
        )
    }
}

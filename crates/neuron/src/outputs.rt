// The outputs of an accepted run, and the text that says them.
ghost use Rattle.std.specs.Prelude.{Some};
ghost use Rattle.neuron.specs.Outputs.{outputs_text};

use arrayvec::ArrayVec;
use std::fmt;

// The outputs of the last layer, and the steps of the whole run.
#[derive(Drop)]
pub struct Outputs {
    pub values: ArrayVec<i32, 64>,
    pub steps: u32,
}

impl fmt::Display for Outputs {
    ghost output = { λ outputs. Some (outputs_text outputs.values.items outputs.steps) };

    fn fmt<W: fmt::Write>(&self, f: &mut fmt::Formatter<W>) -> fmt::Result {
        let steps = self.steps;
        writeln!(f, "out raw steps")?;
        for (number, raw) in self.values.iter().enumerate() {
            writeln!(f, "{number} {raw} {steps}")?;
        }
        Ok(())
    }
}

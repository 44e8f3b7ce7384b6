// Why the program refuses, and the text that says so.
ghost use Rattle.std.specs.Prelude.{◌≡◌, Some};
ghost use Rattle.neuron.specs.Refusals.{refusal_text};
ghost use Rattle.neuron.specs.declared.refusal.Refusal.TheVariants.{Run, Input};

use super::input::BrokenRecord;
use super::place::Place;
use fields::Field;
use network::NetworkFault;
use std::fmt;

#[derive(Clone, Copy, PartialEq, Eq, Debug)]
pub enum Refusal {
    // of the plan or of the run
    Run(NetworkFault),
    // of standard input
    Input(BrokenRecord),
}

// (The kit's derive of `From` has no `from_gives`, which the contract of `decide` needs.)
impl From<NetworkFault> for Refusal {
    ghost from_gives = { λ fault refusal. refusal ≡ Run fault };

    fn from(fault: NetworkFault) -> Refusal {
        Refusal::Run(fault)
    }
}

impl From<BrokenRecord> for Refusal {
    ghost from_gives = { λ broken refusal. refusal ≡ Input broken };

    fn from(broken: BrokenRecord) -> Refusal {
        Refusal::Input(broken)
    }
}

impl fmt::Display for Refusal {
    ghost output = { λ refusal. Some (refusal_text refusal) };

    fn fmt<W: fmt::Write>(&self, f: &mut fmt::Formatter<W>) -> fmt::Result {
        match self {
            Refusal::Run(fault) => {
                let report = fault.report();
                let number = report.number;
                let layer = Field(report.layer);
                let neuron = Field(report.neuron);
                let input = Field(report.input);
                let place = Field(report.record.map(Place::Plan));
                write!(f, "refused {number} {layer} {neuron} {input} {place}")
            }
            Refusal::Input(broken) => {
                let place = Place::Input(broken.position);
                write!(f, "refused 4 - - - {place}")
            }
        }
    }
}

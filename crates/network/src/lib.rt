// Networks of neurons over any stage and any kind of sample: plans, samples and the run.
#![tactic(auto)]

mod activation;
mod admit;
mod code;
mod compute;
mod decode;
mod deliver;
mod faults;
mod fire;
mod gather;
mod kind;
mod layer;
mod layers;
mod net;
mod neurons;
mod next;
mod plan;
mod ran;
mod reader;
mod record;
mod records;
mod reports;
mod runs;
mod sample;
mod site;
mod tanh;
#[cfg(test)]
mod tests;
mod walk;
mod within;

pub use activation::Activation;
pub use code::UnknownCode;
pub use faults::{Located, NetworkFault, NeuronFault, Report};
pub use kind::RecordKind;
pub use plan::Plan;
pub use ran::Ran;
pub use record::Record;
pub use records::Records;
pub use runs::run;
pub use sample::{ConverterWord, Sample, SampleRecord};

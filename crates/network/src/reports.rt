// What a fault of a run says.
ghost use Rattle.std.specs.Prelude.{◌≡◌};
ghost use Rattle.network.specs.Faults.{reported};

use super::faults::{NetworkFault, Report};

impl NetworkFault {
    // (A method and no `From`: its name says what is made. The unit's faults have their own, with other fields.)
    pub fn report(self) -> Report
        ensures answer { result ≡ reported self }
    {
        let blank = Report {
            number: 0,
            layer: None,
            neuron: None,
            input: None,
            record: None,
            inner: None,
        };
        match self {
            NetworkFault::NoSample { position } => Report {
                number: 1,
                input: Some(position),
                ..blank
            },
            NetworkFault::SampleCount => Report { number: 2, ..blank },
            NetworkFault::PlanLength => Report { number: 3, ..blank },
            NetworkFault::PlanRecord { position } => Report {
                number: 4,
                record: Some(position),
                ..blank
            },
            NetworkFault::Arithmetic(found) => Report {
                number: found.inner.unit.report().number,
                layer: Some(found.layer),
                neuron: Some(found.neuron),
                input: found.inner.input,
                record: None,
                inner: Some(found.inner),
            },
            NetworkFault::Places => Report { number: 8, ..blank },
        }
    }
}

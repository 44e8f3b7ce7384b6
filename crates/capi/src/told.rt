// What the reports say of an outcome.
ghost use Rattle.std.specs.Prelude.{◌≡◌, ◌≤◌, IfOk};
ghost use Rattle.capi.specs.Reports.{unit_of, inner_of, told_run};

use super::fields::{field, mode_number, register_number, system_number};
use super::reports::{RunReport, UnitReport};
use cordic::UnitFault;
use network::{NetworkFault, NeuronFault};

impl From<UnitFault> for UnitReport {
    ghost from_gives = { λ fault report. report ≡ unit_of fault };

    fn from(fault: UnitFault) -> UnitReport {
        let told = fault.report();
        let kept = told.kept.unwrap_or_default();
        UnitReport {
            steps: told.steps,
            system: system_number(told.system),
            mode: mode_number(told.mode),
            reg: register_number(told.register),
            step: field(told.step),
            kept_x: kept.x,
            kept_y: kept.y,
            kept_z: kept.z,
        }
    }
}

// The steps of the neuron that a fault arose in, and what its unit says.
fn inner_report(found: Option<NeuronFault>) -> (u32, UnitReport)
    ensures answer { result ≡ inner_of found }
{
    found.map_or((0, UnitReport::NONE), |inner| {
        (inner.steps, UnitReport::from(inner.unit))
    })
}

pub(crate) fn run_report(outcome: Result<usize, NetworkFault>, steps: u32, ticks: u64) -> RunReport
    requires { IfOk outcome (λ k. k ≤ 64) }
    ensures answer { result ≡ told_run outcome steps ticks }
{
    let blank = RunReport {
        steps,
        ticks,
        ..RunReport::BLANK
    };
    match outcome {
        // `u32::try_from` would add a case that never comes.
        Ok(count) => RunReport {
            outputs: count as u32,
            ..blank
        },
        Err(fault) => {
            let told = fault.report();
            let (neuron_steps, unit) = inner_report(told.inner);
            RunReport {
                number: u32::from(told.number),
                neuron_steps,
                layer: field(told.layer),
                neuron: field(told.neuron),
                input: field(told.input),
                record: field(told.record),
                unit,
                ..blank
            }
        }
    }
}

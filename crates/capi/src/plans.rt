// The check of a plan.
ghost use Rattle.std.specs.Prelude.{◌≡◌};
ghost use Rattle.network.specs.Plan.{plan_of};
ghost use Rattle.capi.specs.Reports.{plan_report};

use super::fields::field;
use super::reports::PlanReport;
use network::Plan;

#[unsafe(no_mangle)]
pub extern "C" fn cordic_check_plan(plan: &[u8], report: &mut PlanReport)
    ensures answer { report.new ≡ plan_report (plan_of plan.now) }
{
    *report = match Plan::decode(plan) {
        // `u32::try_from` would add a case that never comes.
        Ok(found) => PlanReport {
            inputs: found.inputs() as u32,
            outputs: found.outputs() as u32,
            ..PlanReport::BLANK
        },
        Err(fault) => {
            let told = fault.report();
            PlanReport {
                number: u32::from(told.number),
                record: field(told.record),
                ..PlanReport::BLANK
            }
        }
    };
}

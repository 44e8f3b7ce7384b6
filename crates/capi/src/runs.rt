// A network run, with its report.
ghost use Rattle.std.specs.Prelude.{◌≡◌};
ghost use Rattle.network.specs.Claim.{Explains};
ghost use Rattle.network.specs.Run.{recurrence, written};
ghost use Rattle.network.specs.Seen.{feed_of};
ghost use Rattle.capi.specs.Reports.{report_of_run};

use super::reports::RunReport;
use super::told::run_report;
use cordic::Idle;
use network::{Ran, Sample, run};
use stage::Stage;

pub(crate) fn run_on<S: Stage + Drop, P: Sample>(
    stage: S,
    plan: &[u8],
    samples: &[P],
    out: &mut [i32],
    report: &mut RunReport,
)
    ensures answer { report.new ≡ report_of_run S.Stage.TICKS (recurrence (feed_of S.Stage P.Sample plan.now samples.now out.old stage)) }
    ensures lent { out.new ≡ written (recurrence (feed_of S.Stage P.Sample plan.now samples.now out.old stage)) out.old }
    ensures means { Explains (feed_of S.Stage P.Sample plan.now samples.now out.old stage) (recurrence (feed_of S.Stage P.Sample plan.now samples.now out.old stage)) }
{
    let Ran {
        unit,
        outcome,
        steps,
        ticks,
    } = run(Idle::new(stage), plan, samples, out);
    unit.into_stage();
    *report = run_report(outcome, steps, ticks);
}

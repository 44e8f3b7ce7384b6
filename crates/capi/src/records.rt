// A network run over sample records, on a stage that was just made.
ghost use Rattle.std.specs.Prelude.{◌≡◌};
ghost use Rattle.network.specs.Claim.{Explains};
ghost use Rattle.network.specs.Run.{recurrence, written};
ghost use Rattle.capi.specs.Feeds.{record_feed};
ghost use Rattle.capi.specs.Reports.{report_of_run};

use super::reports::RunReport;
use super::runs::run_on;
use network::SampleRecord;
use stage::{BitSerial, Parallel};

// C has no generic functions, so the run has an exported name for each stage.
#[unsafe(no_mangle)]
pub extern "C" fn cordic_run_parallel(
    plan: &[u8],
    samples: &[SampleRecord],
    out: &mut [i32],
    report: &mut RunReport,
)
    ensures answer { report.new ≡ report_of_run 1 (recurrence (record_feed plan.now samples.now out.old)) }
    ensures lent { out.new ≡ written (recurrence (record_feed plan.now samples.now out.old)) out.old }
    ensures means { Explains (record_feed plan.now samples.now out.old) (recurrence (record_feed plan.now samples.now out.old)) }
{
    run_on(Parallel::new(), plan, samples, out, report);
}

#[unsafe(no_mangle)]
pub extern "C" fn cordic_run_bit_serial(
    plan: &[u8],
    samples: &[SampleRecord],
    out: &mut [i32],
    report: &mut RunReport,
)
    ensures answer { report.new ≡ report_of_run 32 (recurrence (record_feed plan.now samples.now out.old)) }
    ensures lent { out.new ≡ written (recurrence (record_feed plan.now samples.now out.old)) out.old }
    ensures means { Explains (record_feed plan.now samples.now out.old) (recurrence (record_feed plan.now samples.now out.old)) }
{
    run_on(BitSerial::new(), plan, samples, out, report);
}

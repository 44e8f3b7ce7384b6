// A network run over converter words, on a stage that was just made.
ghost use Rattle.std.specs.Prelude.{◌≡◌};
ghost use Rattle.network.specs.Claim.{Explains};
ghost use Rattle.network.specs.Run.{recurrence, written};
ghost use Rattle.capi.specs.Feeds.{converter_feed};
ghost use Rattle.capi.specs.Reports.{report_of_run};

use super::reports::RunReport;
use super::runs::run_on;
use network::ConverterWord;
use stage::{BitSerial, Parallel};

// C has no generic functions, so the run has an exported name for each stage, and the parameters that its header names.
#[unsafe(no_mangle)]
pub extern "C" fn cordic_run_converter_parallel(
    plan: &[u8],
    samples: &[ConverterWord],
    out: &mut [i32],
    report: &mut RunReport,
)
    ensures answer { report.new ≡ report_of_run 1 (recurrence (converter_feed plan.now samples.now out.old)) }
    ensures lent { out.new ≡ written (recurrence (converter_feed plan.now samples.now out.old)) out.old }
    ensures means { Explains (converter_feed plan.now samples.now out.old) (recurrence (converter_feed plan.now samples.now out.old)) }
{
    run_on(Parallel::new(), plan, samples, out, report);
}

#[unsafe(no_mangle)]
pub extern "C" fn cordic_run_converter_bit_serial(
    plan: &[u8],
    samples: &[ConverterWord],
    out: &mut [i32],
    report: &mut RunReport,
)
    ensures answer { report.new ≡ report_of_run 32 (recurrence (converter_feed plan.now samples.now out.old)) }
    ensures lent { out.new ≡ written (recurrence (converter_feed plan.now samples.now out.old)) out.old }
    ensures means { Explains (converter_feed plan.now samples.now out.old) (recurrence (converter_feed plan.now samples.now out.old)) }
{
    run_on(BitSerial::new(), plan, samples, out, report);
}

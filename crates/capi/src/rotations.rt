// One rotation on a parallel stage that was just made.
ghost use Rattle.std.specs.Prelude.{◌≡◌, ◌≤◌, unsigned_abs};
ghost use Rattle.stage.specs.Stage.{silent};
ghost use Rattle.cordic.specs.Tables.{order};
ghost use Rattle.cordic.specs.Unit.{passed};
ghost use Rattle.cordic.specs.declared.mode.Mode.TheVariants.{Rotation};
ghost use Rattle.capi.specs.Feeds.{fresh};
ghost use Rattle.capi.specs.Reports.{pass_report};
ghost use Rattle.capi.specs.Rotations.{system_of, rotation};

use super::reports::{PassReport, UnitReport};
use cordic::{Answer, Idle, Mode, Refused};
use stage::{Parallel, System, Triple};

// The system that C knows by this number.
fn numbered(system: u32) -> Option<System>
    ensures answer { result ≡ system_of system }
{
    match system {
        0 => Some(System::Linear),
        1 => Some(System::Circular),
        2 => Some(System::Hyperbolic),
        _ => None,
    }
}

fn rotated(system: System, t: Triple) -> PassReport
    ensures answer { result ≡ pass_report (passed silent system (order system) Rotation t fresh) }
    ensures rotation_ends { unsigned_abs result.z ≤ 1 }
{
    // both arms take the unit apart, since it is linear
    match Idle::new(Parallel::new()).pass_in(system, Mode::Rotation, t) {
        Ok(Answer { unit, value, steps }) => {
            unit.into_stage();
            PassReport {
                steps,
                x: value.x,
                y: value.y,
                z: value.z,
                ..PassReport::BLANK
            }
        }
        Err(Refused { unit, fault, steps }) => {
            unit.into_stage();
            PassReport {
                number: u32::from(fault.report().number),
                steps,
                unit: UnitReport::from(fault),
                ..PassReport::BLANK
            }
        }
    }
}

#[unsafe(no_mangle)]
pub extern "C" fn cordic_rotate(x: i32, y: i32, z: i32, system: u32, report: &mut PassReport)
    ensures answer { report.new ≡ rotation (system_of system) (record { x = x; y = y; z = z }) }
    ensures rotation_ends { unsigned_abs report.new.z ≤ 1 }
{
    *report = match numbered(system) {
        Some(system) => rotated(system, Triple { x, y, z }),
        None => PassReport {
            number: 100,
            ..PassReport::BLANK
        },
    };
}

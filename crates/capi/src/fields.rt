// The fields of a report, as the numbers that C knows them by, which do not follow the order of the variants here.
ghost use Rattle.std.specs.Prelude.{◌≡◌};
ghost use Rattle.capi.specs.Fields.{field_of, number_of_system, number_of_mode, number_of_register};

use cordic::Mode;
use stage::{Register, System};

pub(crate) fn field(found: Option<u32>) -> i64
    ensures answer { result ≡ field_of found }
{
    found.map_or(-1, i64::from)
}

pub(crate) fn system_number(system: System) -> i32
    ensures answer { result ≡ number_of_system system }
{
    match system {
        System::Linear => 0,
        System::Circular => 1,
        System::Hyperbolic => 2,
    }
}

pub(crate) fn mode_number(mode: Mode) -> i32
    ensures answer { result ≡ number_of_mode mode }
{
    match mode {
        Mode::Rotation => 0,
        Mode::Vectoring => 1,
    }
}

pub(crate) fn register_number(found: Option<Register>) -> i32
    ensures answer { result ≡ number_of_register found }
{
    match found {
        Some(Register::X) => 0,
        Some(Register::Y) => 1,
        Some(Register::Z) => 2,
        None => -1,
    }
}

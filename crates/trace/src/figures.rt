// A register as a decimal fraction.
ghost use Rattle.std.specs.Prelude.{◌≡◌, ◌+◌, ◌*◌, ◌^◌, ◌<◌, pos, int_lt};
ghost use Rattle.trace.specs.Figures.{billionths_of};

use std::fmt;

const BILLION: u64 = 1000000000;

// A value with nine places: whole part and billionths. (The sign stands apart, since −0.000000004 has a whole part of 0.)
#[derive(Clone, Copy)]
pub struct Fraction {
    negative: bool,
    whole: u64,
    billionths: u64,
}

impl Fraction {
    // raw / 2^28, rounded to nearest, ties away from zero. (No `From`, which would be one clause in place of three with names.)
    pub(crate) fn of(raw: i32) -> Fraction
        ensures answer { result.whole * 10 ^ 9 + result.billionths ≡ billionths_of raw }
        ensures places { result.billionths < 10 ^ 9 }
        ensures sign { result.negative ≡ int_lt raw (pos 0) }
    {
        let size = u64::from(raw.unsigned_abs());
        let rounded = (size * BILLION + 0x800_0000) / 0x1000_0000;
        Fraction {
            negative: raw < 0,
            whole: rounded / BILLION,
            billionths: rounded % BILLION,
        }
    }
}

// Twelve columns: a minus or a blank, one digit, the point and nine places.
impl fmt::Display for Fraction {
    fn fmt<W: fmt::Write>(&self, f: &mut fmt::Formatter<W>) -> fmt::Result {
        let sign = if self.negative { '-' } else { ' ' };
        let whole = self.whole;
        let billionths = self.billionths;
        write!(f, "{sign}{whole}.{billionths:09}")
    }
}

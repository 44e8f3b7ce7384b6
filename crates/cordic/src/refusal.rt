// Which loads are refused: a rotation's angle out of reach, a vectoring that cannot converge.
ghost use Rattle.std.specs.Prelude.{◌≡◌, ◌^◌, ◌≤◌};
ghost use Rattle.std.proofs.Common.{nat_abs};
ghost use Rattle.stage.specs.Word.{shifted};
ghost use Rattle.cordic.specs.Unit.{refusal as refusal_of, beyond as beyond_of, span as span_of, limit as limit_of, steep as steep_of};

use super::coordinate::Coordinate;
use super::faults::Cause;
use super::mode::Mode;
use super::order::Iteration;
use stage::{Shift, System, Triple};

// A load that is asked for.
#[derive(Clone, Copy)]
pub(crate) struct Start<C> {
    pub system: C,
    pub mode: Mode,
    pub triple: Triple,
}

impl<C: Coordinate> Start<C> {
    // |z| is more than all entries and one unit can turn. The size of −2^31 needs more than 31 bits.
    fn beyond(&self) -> bool
        ensures answer { result ≡ beyond_of C.Coordinate.order self.now.triple.z }
    {
        u64::from(self.triple.z.unsigned_abs()) > self.system.total() + 1
    }

    // x shifted by s.
    fn part(&self, s: Shift) -> i64
        ensures answer { result ≡ shifted self.now.triple.x s.amount }
        ensures small { nat_abs result ≤ 2 ^ 31 }
    {
        i64::from(self.triple.x >> s.amount)
    }

    // x shifted by each shift of the order, summed.
    fn span(&self) -> i64
        ensures answer { result ≡ span_of self.now.triple.x C.Coordinate.order }
        ensures small { nat_abs result ≤ 2 ^ 37 }
    {
        let mut sum = 0;
        for row in self.system.rows() {
            sum += self.part(Iteration::from(*row).shift);
        }
        sum
    }

    // The largest |y| from which linear vectoring converges.
    fn limit(&self) -> i64
        ensures answer { result ≡ limit_of C.Coordinate.order self.now.triple }
    {
        self.span() + (self.part(Shift { amount: 28 }) + 27)
    }

    // |y| is too large for x.
    fn steep(&self) -> bool
        ensures answer { result ≡ steep_of C.Coordinate.kind C.Coordinate.order self.now.triple }
    {
        let size = i64::from(self.triple.y.unsigned_abs());
        match self.system.system() {
            System::Linear => size > self.limit(),
            System::Circular => false,
            System::Hyperbolic => 5 * size > 4 * i64::from(self.triple.x),
        }
    }

    pub(crate) fn refusal(&self) -> Option<Cause>
        ensures answer { result ≡ refusal_of C.Coordinate.kind C.Coordinate.order self.now.mode self.now.triple }
    {
        match self.mode {
            Mode::Rotation => self.beyond().then_some(Cause::Unreachable),
            Mode::Vectoring => {
                (self.triple.x < 0x100_0000 || self.steep()).then_some(Cause::BadStart)
            }
        }
    }
}

// The checks before the arithmetic, in their order: 3, 4, 8, 2, 1.
ghost use Rattle.std.specs.Prelude.{◌≡◌, map, length};
ghost use Rattle.network.specs.Admitted.{Admits};
ghost use Rattle.network.specs.Run.{Feed};

use super::faults::NetworkFault;
use super::gather::gather;
use super::plan::Plan;
use super::sample::Sample;
use arrayvec::ArrayVec;

// The inputs of the first layer, or the first check that fails.
pub(crate) fn admit<P: Sample>(
    bytes: &[u8],
    samples: &[P],
    places: usize,
) -> Result<ArrayVec<i32, 64>, NetworkFault>
    ensures answer { (f : Feed) → f.plan ≡ bytes.now → f.samples ≡ map P.Sample.yields samples.now → length f.places ≡ places → Admits f result }
{
    let plan = Plan::decode(bytes)?;
    if places < plan.outputs() {
        return Err(NetworkFault::Places);
    }
    if samples.len() != plan.inputs() {
        return Err(NetworkFault::SampleCount);
    }
    gather(samples)
}

// What the program prints.
ghost use Rattle.std.specs.Prelude.{◌≡◌, IfOk, string_bytes};
ghost use Rattle.neuron.specs.Verdict.{verdict};
ghost use Rattle.neuron.specs.Printout.{printed};

use super::verdict::decide;
use std::alloc::{AllocError, Global};

// All that is printed, from all that was read.
pub(crate) fn printout(heap: Global, plan: &[u8], input: &[u8]) -> Result<String, AllocError>
    ensures answer { IfOk result (λ s. string_bytes s ≡ printed (verdict plan.now input.now)) }
{
    match decide(plan, input) {
        Ok(outputs) => format!(in heap; "{outputs}"),
        Err(refusal) => format!(in heap; "{refusal}\n"),
    }
}

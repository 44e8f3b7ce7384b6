// The places that are lent to a run.
ghost use Rattle.std.specs.Prelude.{◌≡◌, map, negsuc, IfOk};
ghost use Rattle.std.specs.List.{range_with_len};

use std::alloc::{AllocError, Global};

// Place i holds −1 − i.
pub(crate) fn lend(heap: Global, count: u8) -> Result<Vec<i32>, AllocError>
    ensures lent { IfOk result (λ v. v.items ≡ map (λ i. negsuc i) (range_with_len 0 count)) }
{
    (0..count).map(|i| -1 - i32::from(i)).collect(heap)
}

// A plan: bytes that encode a well-formed network, the samples that it takes and the places that it fills.

#[derive(Clone, Copy)]
pub struct Plan<'a> {
    pub(crate) bytes: &'a [u8],
    pub(crate) inputs: usize,
    pub(crate) outputs: usize,
}

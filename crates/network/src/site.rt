// Where a refusal arose.
use cordic::Refused;

// A neuron of a network: layer and neuron, from 0.
#[derive(Clone, Copy)]
pub struct Site {
    pub layer: u32,
    pub neuron: u32,
}

// A refusal and its place, on the way to the fault above it.
pub struct Within<S, P, F> {
    pub place: P,
    pub refused: Refused<S, F>,
}

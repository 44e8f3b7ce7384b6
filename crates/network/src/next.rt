// What the next record of a plan has to be.

// The layer that is being read: its size, and how many layers may still follow it. (`left` comes first: a number in its place would share its bytes
// with the tag of `before`, which made each check of a plan slower.)
#[derive(Clone, Copy)]
pub struct Shape {
    pub left: u8,
    pub neurons: u16,
    pub inputs: u16,
}

#[derive(Clone, Copy)]
pub enum Next {
    // a layer, after one of `before` neurons, or the end where there is one
    Layer {
        before: Option<u16>,
        left: u8,
    },
    Bias {
        shape: Shape,
        neuron: u16,
    },
    Weight {
        shape: Shape,
        neuron: u16,
        input: u16,
    },
}

// A neuron read back from the records of a plan.
ghost use Rattle.std.specs.Prelude.{◌≡◌, ◌<◌, ◌≤◌, length};
ghost use Rattle.network.specs.Neuron.{Neuron as NeuronOf};
ghost use Rattle.network.specs.Plan.{records};
ghost use Rattle.network.specs.Reading.{NeuronRead};

use super::record::Record;
use arrayvec::ArrayVec;
use std::marker::Model;

#[derive(Drop)]
pub(crate) struct Neuron {
    pub bias: i32,
    pub weights: ArrayVec<i32, 64>,
}

// A clause sees the neuron that a plan describes.
impl Model for Neuron {
    ghost Value = { NeuronOf };

    ghost view = { λ n. record { bias = n.bias; weights = n.weights.items } };
}

impl Neuron {
    // The neuron that `bytes` begin with, and what follows it.
    pub(crate) fn read(bytes: &[u8], inputs: usize) -> (Neuron, &[u8])
        requires { (inputs ≤ 64) × (inputs < length (records bytes.now)) }
        ensures answer { NeuronRead inputs (records bytes.now) result.0 (records result.1.now) }
    {
        let Some((bias, mut rest)) = Record::read(bytes) else {
            unreachable()
        };
        let bias = bias.value;
        let mut weights = ArrayVec::new();
        // the rest is what the reader of a record answers, and no index
        for _ in 0..inputs {
            let Some((weight, tail)) = Record::read(rest) else {
                unreachable()
            };
            weights.push(weight.value);
            rest = tail;
        }
        (Neuron { bias, weights }, rest)
    }
}

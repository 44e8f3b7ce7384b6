// One record of a plan after another: what may stand there, and what may follow it.
ghost use Rattle.std.specs.Prelude.{◌≡◌, ◌<◌};
ghost use Rattle.network.specs.Plan.{accept, opened, filled, last_width};
ghost use Rattle.network.specs.Walk.{Sound};

use super::activation::Activation;
use super::kind::RecordKind;
use super::next::{Next, Shape};
use super::record::Record;

// What a record of kind `Layer` opens.
fn open_layer(before: Option<u16>, left: u8, given: Record) -> Option<Next>
    requires { given.kind ≡ 1 }
    ensures answer { result ≡ opened before left given }
{
    let shape = Shape {
        neurons: given.index,
        inputs: u16::try_from(given.value).ok()?,
        left: left.checked_sub(1)?,
    };
    let joined = before.is_none_or(|width| shape.inputs == width);
    match (
        Activation::try_from(given.flag),
        shape.neurons,
        shape.inputs,
    ) {
        (Ok(_), 1..=64, 1..=64) if joined => Some(Next::Bias { shape, neuron: 0 }),
        _ => None,
    }
}

// What comes after the weight of `input` of `neuron`.
fn after_weight(shape: Shape, neuron: u16, input: u16) -> Next
    requires { (input < 64) × (neuron < 64) }
    ensures answer { result ≡ filled shape neuron input }
{
    if input + 1 < shape.inputs {
        Next::Weight {
            shape,
            neuron,
            input: input + 1,
        }
    } else if neuron + 1 < shape.neurons {
        Next::Bias {
            shape,
            neuron: neuron + 1,
        }
    } else {
        Next::Layer {
            before: Some(shape.neurons),
            left: shape.left,
        }
    }
}

impl Next {
    // What may follow a record, where it may stand at all. (The flag of a bias or a weight is 0 and stands for nothing. The kind is compared by its
    // byte: to look each byte up among the kinds takes a third more time over a plan.)
    pub(crate) fn accept(self, given: Record) -> Option<Next>
        requires { Sound self }
        ensures answer { result ≡ accept self given }
    {
        match self {
            Next::Layer { before, left } if given.kind == RecordKind::Layer.code() => {
                open_layer(before, left, given)
            }
            Next::Bias { shape, neuron }
                if given.kind == RecordKind::Bias.code()
                    && given.flag == 0
                    && given.index == neuron => {
                Some(Next::Weight {
                    shape,
                    neuron,
                    input: 0,
                })
            }
            Next::Weight {
                shape,
                neuron,
                input,
            } if given.kind == RecordKind::Weight.code()
                && given.flag == 0
                && given.index == input => { Some(after_weight(shape, neuron, input)) }
            _ => None,
        }
    }

    // The neurons of the last layer, where the plan may end here.
    pub(crate) fn last_width(self) -> Option<u16>
        ensures answer { result ≡ last_width self }
    {
        match self {
            Next::Layer { before, .. } => before,
            Next::Bias { .. } | Next::Weight { .. } => None,
        }
    }
}

// Hands a result on: with the steps made before it, and with the place where a refusal arose.
ghost use Rattle.std.specs.Prelude.{◌≡◌, ◌+◌, ◌^◌, ◌<◌};
ghost use Rattle.network.specs.Placing.{later as later_by, placed as placed_at, raised, steps_made, in_neuron, in_network};

use super::faults::{Located, NetworkFault, NeuronFault};
use super::site::{Site, Within};
use cordic::{Answer, Refused, UnitFault};

// The same with `before` steps made before. (Closures for `map` and `map_err` would have to state the bound on the sum again, each for itself.)
pub(crate) fn later<S, V, F>(
    outcome: Result<Answer<S, V>, Refused<S, F>>,
    before: u32,
) -> Result<Answer<S, V>, Refused<S, F>>
    requires { before + steps_made outcome < 2 ^ 32 }
    ensures answer { result ≡ later_by before outcome }
{
    match outcome {
        Ok(Answer { unit, value, steps }) => Ok(Answer {
            unit,
            value,
            steps: before + steps,
        }),
        Err(Refused { unit, fault, steps }) => Err(Refused {
            unit,
            fault,
            steps: before + steps,
        }),
    }
}

// The same with the place where it arose.
pub(crate) fn placed<S, P: Copy, V, F>(
    outcome: Result<Answer<S, V>, Refused<S, F>>,
    place: P,
) -> Result<Answer<S, V>, Within<S, P, F>>
    ensures answer { result ≡ placed_at place outcome }
{
    outcome.map_err(|refused| Within { place, refused })
}

impl<S> From<Within<S, Option<u32>, UnitFault>> for Refused<S, NeuronFault> {
    ghost from_gives = { λ w r. r ≡ raised in_neuron w };

    fn from(w: Within<S, Option<u32>, UnitFault>) -> Refused<S, NeuronFault> {
        let Within { place, refused } = w;
        let Refused { unit, fault, steps } = refused;
        Refused {
            unit,
            fault: NeuronFault {
                input: place,
                unit: fault,
                steps,
            },
            steps,
        }
    }
}

impl<S> From<Within<S, Site, NeuronFault>> for Refused<S, NetworkFault> {
    ghost from_gives = { λ w r. r ≡ raised in_network w };

    fn from(w: Within<S, Site, NeuronFault>) -> Refused<S, NetworkFault> {
        let Within { place, refused } = w;
        let Refused { unit, fault, steps } = refused;
        Refused {
            unit,
            fault: NetworkFault::Arithmetic(Located {
                layer: place.layer,
                neuron: place.neuron,
                inner: fault,
            }),
            steps,
        }
    }
}

// The decoder of plans: one walk over the records. (`records` and `layers_of` are what bytes mean as a plan.)
ghost use Rattle.std.specs.Prelude.{◌≡◌, ℕ, List, Ok, Err, MatchResult};
ghost use Rattle.network.specs.Plan.{LayerOf, has_bad_length, plan_of, records};
ghost use Rattle.network.specs.Network.{Describes, BreaksAt};
ghost use Rattle.network.specs.Run.{entrance, exits};
ghost use Rattle.network.specs.Walk.{layers_of};

use super::faults::NetworkFault;
use super::next::Next;
use super::plan::Plan;
use super::record::Record;
use super::records::Records;

// A plan begins with a layer, and has at most four.
const START: Next = Next::Layer {
    before: None,
    left: 4,
};

// Not one to 8191 whole records?
fn bad_length(len: usize) -> bool
    ensures answer { result ≡ has_bad_length len }
{
    len == 0 || len % 8 != 0 || len > 65528
}

// Are these bytes a plan? Then the neurons of its last layer.
fn judge(bytes: &[u8]) -> Result<u16, NetworkFault>
    ensures answer { MatchResult result (λ w. (plan_of bytes.now ≡ Ok (layers_of bytes.now)) × (w ≡ exits (layers_of bytes.now))) (λ f. plan_of bytes.now ≡ Err f) }
{
    if bad_length(bytes.len()) {
        return Err(NetworkFault::PlanLength);
    }
    let mut next = START;
    for (position, given) in Records::of(bytes).enumerate() {
        // the cast fits, as the one below does: at most 8191 records
        next = next.accept(given).ok_or(NetworkFault::PlanRecord {
            position: position as u32,
        })?;
    }
    next.last_width().ok_or(NetworkFault::PlanRecord {
        position: (bytes.len() / 8) as u32,
    })
}

impl<'a> Plan<'a> {
    // The plan that these bytes are, or the fault: 3 for the length, 4 for the first record that breaks it or is missing.
    pub fn decode(bytes: &'a [u8]) -> Result<Plan<'a>, NetworkFault>
        ensures answer { MatchResult result (λ p. (p.bytes.now ≡ bytes.now) × (plan_of bytes.now ≡ Ok (layers_of bytes.now)) × (p.inputs ≡ entrance (layers_of bytes.now)) × (p.outputs ≡ exits (layers_of bytes.now))) (λ f. plan_of bytes.now ≡ Err f) }
        ensures accepted { ((hs : List LayerOf) → plan_of bytes.now ≡ Ok hs → Describes hs bytes.now) × ((hs : List LayerOf) → Describes hs bytes.now → plan_of bytes.now ≡ Ok hs) }
        ensures refused { (p : ℕ) → plan_of bytes.now ≡ Err (NetworkFault.PlanRecord p) → BreaksAt p (records bytes.now) }
    {
        let outputs = judge(bytes)?;
        let Some((head, _)) = Record::read(bytes) else {
            // a plan has a record; a walk that also hands on its first one is no plainer
            unreachable()
        };
        Ok(Plan {
            bytes,
            // fits: 1 to 64
            inputs: head.value as usize,
            outputs: usize::from(outputs),
        })
    }

    // The samples that a run of it takes: the inputs of the first layer.
    pub fn inputs(&self) -> usize
        ensures answer { result ≡ self.now.inputs }
    {
        self.inputs
    }

    // The places that a run of it fills: the neurons of the last layer.
    pub fn outputs(&self) -> usize
        ensures answer { result ≡ self.now.outputs }
    {
        self.outputs
    }
}

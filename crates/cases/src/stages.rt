// What a request runs on: a stage under a probe, and for a pass with a recorder between them.
ghost use Rattle.std.specs.Prelude.{◌≡◌};
ghost use Rattle.cases.specs.Start.{start as loaded_with};

use super::done::Done;
use super::pass::pass;
use super::request::{Request, Samples};
use super::runs::run_network;
use stage::{Probe, Recorder, Stage, Triple};
use std::alloc::{AllocError, Global};

pub type Pile<S> = Probe<Recorder<S>>;

// Probed and loaded, so that a stage that is left as it was can be told from one that was cleared.
fn probed<S: Stage>(stage: S) -> Probe<S>
    ensures held { S.Stage.triple result.below ≡ loaded_with }
{
    let mut made = Probe::new(stage);
    made.load(Triple {
        x: 11,
        y: -12,
        z: 13,
    });
    made
}

pub(crate) fn run_on<S: Stage + Drop>(
    heap: Global,
    stage: S,
    request: &Request,
) -> Result<Done, AllocError> {
    match request {
        Request::Pass {
            system,
            mode,
            start,
        } => Ok(pass(probed(Recorder::new(stage)), *system, *mode, *start)),
        Request::Run {
            samples,
            places,
            plan,
        } => {
            let (stage, plan) = (probed(stage), plan.as_slice());
            // One kind of sample made of both would have no fewer lines, and the library's two would not be run as they are.
            match samples {
                Samples::Converter(words) => run_network(
                    heap,
                    stage,
                    plan,
                    words.as_slice(),
                    *places,
                ),
                Samples::Records(records) => run_network(
                    heap,
                    stage,
                    plan,
                    records.as_slice(),
                    *places,
                ),
            }
        }
    }
}

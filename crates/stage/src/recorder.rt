// The recorder, a stage made of any other stage: it keeps the triple after each accepted step since the load. (Apart from the probe: a trait over
// what is noted, its rule and when it is blank, for two kinds whose own calls differ, is longer than what the two repeat.)
ghost use Rattle.std.specs.Prelude.{◌≡◌, []};
ghost use Rattle.stage.specs.Recorder.{recorder_notes, recorder_rule};
ghost use Rattle.std.proofs.Common.{rules};

use super::registers::Triple;
use super::stage::Stage;
use super::step::{Overflow, Step};
use arrayvec::ArrayVec;

// A stage has no place for a want of memory, so the log is as long as any order of steps.
#[derive(Drop)]
pub struct Recorder<S> {
    below: S,
    log: ArrayVec<Triple, 64>,
}

impl<S> Recorder<S> {
    // A recorder around a stage, which stays as it is.
    pub fn new(below: S) -> Recorder<S>
        ensures same { result.below ≡ below }
        ensures recorded { result.log.items ≡ [] }
    {
        Recorder {
            below,
            log: ArrayVec::new(),
        }
    }

    // The triples after the first 64 accepted steps since the load.
    pub fn triples(&self) -> &[Triple]
        ensures recorded { result.now ≡ self.now.log.items }
    {
        self.log.as_slice()
    }

    // Takes the recorder off: the stage below.
    pub fn into_inner(self) -> S
        ensures same { result ≡ self.below }
    {
        let Recorder { below, log: _ } = self;
        below
    }
}

impl<S: Stage> Stage for Recorder<S> {
    const TICKS: u32 = S::TICKS;

    ghost TICKS = { S.Stage.TICKS };

    ghost triple = { λ r. S.Stage.triple r.below };

    ghost notes = { λ r. recorder_notes (r.log.items) (S.Stage.notes r.below) };

    ghost rule = { recorder_rule S.Stage.rule };

    ghost ticking = { Prim.search rules };

    fn load(&mut self, t: Triple) {
        self.below.load(t);
        self.log.clear();
    }

    fn step(&mut self, s: Step) -> Result<(), Overflow> {
        self.below.step(s)?;
        if !self.log.is_full() {
            self.log.push(self.below.read());
        }
        Ok(())
    }

    fn read(&self) -> Triple {
        self.below.read()
    }
}

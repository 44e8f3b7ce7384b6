// The probe, a stage made of any other stage: it counts the accepted steps since the load, and keeps the triple before the latest.
ghost use Rattle.std.specs.Prelude.{◌≡◌, Some, None};
ghost use Rattle.stage.specs.Probe.{one_more, probe_notes, probe_rule};
ghost use Rattle.std.proofs.Common.{rules};

use super::registers::Triple;
use super::stage::Stage;
use super::step::{Overflow, Step};

// What a probe counts and keeps.
#[derive(Clone, Copy)]
struct Tally {
    accepted: u32,
    before: Option<Triple>,
}

impl Tally {
    fn new() -> Tally
        ensures answer { (result.accepted ≡ 0) × (result.before ≡ None) }
    {
        Tally {
            accepted: 0,
            before: None,
        }
    }

    // One accepted step more, from this triple.
    fn push(self, before: Triple) -> Tally
        ensures answer { (result.accepted ≡ one_more self.accepted) × (result.before ≡ Some before) }
    {
        Tally {
            accepted: self.accepted.saturating_add(1),
            before: Some(before),
        }
    }
}

#[derive(Drop)]
pub struct Probe<S> {
    below: S,
    tally: Tally,
}

impl<S> Probe<S> {
    // A probe around a stage, which stays as it is.
    pub fn new(below: S) -> Probe<S>
        ensures same { result.below ≡ below }
        ensures recorded { (result.tally.accepted ≡ 0) × (result.tally.before ≡ None) }
    {
        Probe {
            below,
            tally: Tally::new(),
        }
    }

    // The number of accepted steps since the load, or since the probe was made; it stays at 2^32 − 1 once there.
    pub fn accepted(&self) -> u32
        ensures recorded { result ≡ self.now.tally.accepted }
    {
        self.tally.accepted
    }

    // The triple before the latest of these steps, if there was one.
    pub fn before_latest(&self) -> Option<Triple>
        ensures recorded { result ≡ self.now.tally.before }
    {
        self.tally.before
    }

    // Takes the probe off: the stage below.
    pub fn into_inner(self) -> S
        ensures same { result ≡ self.below }
    {
        let Probe { below, tally: _ } = self;
        below
    }
}

impl<S: Stage> Stage for Probe<S> {
    const TICKS: u32 = S::TICKS;

    ghost TICKS = { S.Stage.TICKS };

    ghost triple = { λ p. S.Stage.triple p.below };

    ghost notes = { λ p. probe_notes p.tally.accepted p.tally.before (S.Stage.notes p.below) };

    ghost rule = { probe_rule S.Stage.rule };

    ghost ticking = { Prim.search rules };

    fn load(&mut self, t: Triple) {
        self.below.load(t);
        self.tally = Tally::new();
    }

    fn step(&mut self, s: Step) -> Result<(), Overflow> {
        let before = self.below.read();
        self.below.step(s)?;
        self.tally = self.tally.push(before);
        Ok(())
    }

    fn read(&self) -> Triple {
        self.below.read()
    }
}

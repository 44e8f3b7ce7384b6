// What a recorder has kept of a pass: how many triples, and their digest.
ghost use Rattle.std.specs.Prelude.{◌≡◌, length};
ghost use Rattle.cases.specs.Digest.{digest_of};

use super::digest::digest;
use stage::Recorder;
use std::fmt;

#[derive(Clone, Copy)]
pub struct Recorded {
    triples: usize,
    digest: u32,
}

impl<S> From<&Recorder<S>> for Recorded {
    ghost from_gives = { λ recorder recorded. (recorded.triples ≡ length (recorder.now.log.items)) × (recorded.digest ≡ digest_of (recorder.now.log.items)) };

    fn from(recorder: &Recorder<S>) -> Recorded {
        let triples = recorder.triples();
        Recorded {
            triples: triples.len(),
            digest: digest(triples),
        }
    }
}

impl fmt::Display for Recorded {
    fn fmt<W: fmt::Write>(&self, f: &mut fmt::Formatter<W>) -> fmt::Result {
        write!(f, "triples {} digest {:08x}", self.triples, self.digest)
    }
}

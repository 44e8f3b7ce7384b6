// A request that was run on a stage: what it came to, what it left, and of a pass what was recorded.
use super::left::Left;
use super::outcome::Outcome;
use super::recorded::Recorded;
use std::fmt;

#[derive(Drop)]
pub struct Done {
    pub outcome: Outcome,
    pub left: Left,
    pub recorded: Option<Recorded>,
}

impl fmt::Display for Done {
    fn fmt<W: fmt::Write>(&self, f: &mut fmt::Formatter<W>) -> fmt::Result {
        write!(f, "{} {}", self.outcome, self.left)?;
        match self.recorded {
            Some(recorded) => write!(f, " {recorded}"),
            None => Ok(()),
        }
    }
}

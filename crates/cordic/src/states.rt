// The three states of a unit, and what its calls hand back. A unit is moved from one state to the next and never copied.
use super::mode::Mode;

pub struct Idle<S> {
    pub(crate) stage: S,
}

pub struct Loaded<S, C> {
    pub(crate) stage: S,
    pub(crate) system: C,
    pub(crate) mode: Mode,
}

pub struct Finished<S> {
    pub(crate) stage: S,
    pub(crate) steps: u32,
}

// What was asked for, the steps that it took, and the unit, idle again.
pub struct Answer<S, V> {
    pub unit: Idle<S>,
    pub value: V,
    pub steps: u32,
}

// A fault, the steps accepted before it, and the unit, idle again. (The `Err` beside that `Ok`: one type for both would lose the names.)
pub struct Refused<S, F> {
    pub unit: Idle<S>,
    pub fault: F,
    pub steps: u32,
}

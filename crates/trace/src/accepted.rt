// An accepted step, as it is printed: a row of the table, whose shift is a plain number, where what a stage is told has a shift amount.
use stage::Direction;

// Its place in the order, from 1, and what it was told.
#[derive(Clone, Copy)]
pub struct Accepted {
    pub number: usize,
    pub shift: u32,
    pub entry: u32,
    pub direction: Direction,
}

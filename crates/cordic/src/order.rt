// The order of iterations of a coordinate system, and the table that holds it.
ghost use Rattle.std.specs.Prelude.{◌≡◌};
ghost use Rattle.cordic.specs.Order.{iteration};

use stage::Shift;

// One iteration: a shift and its entry.
#[derive(Clone, Copy, PartialEq, Eq, Debug)]
pub struct Iteration {
    pub shift: Shift,
    pub entry: u32,
}

// A row of a table: a shift and its entry as plain numbers, which a static can hold.
#[derive(Clone, Copy, PartialEq, Eq, Debug)]
pub struct Row {
    pub shift: u32,
    pub entry: u32,
}

impl From<Row> for Iteration {
    ghost from_gives = { λ row k. k ≡ iteration row };

    fn from(row: Row) -> Iteration {
        Iteration {
            shift: Shift::capped(row.shift),
            entry: row.entry,
        }
    }
}

// A table reads as two columns, where literals of the struct would take four lines a row.
macro_rules! rows {
    ($(($shift:literal, $entry:literal)),* $(,)?) => {
        [$(Row { shift: $shift, entry: $entry }),*]
    };
}

pub(crate) use rows;

// Worked rows of the definitions, shown as one list.
ghost use Rattle.std.specs.Prelude.{◌≡◌, length};
ghost use Rattle.cordic.specs.Rows.{rows, RowsStand};

// How many rows are shown; each row of the definitions comes to what the list says.
pub fn rows_shown() -> usize
    ensures answer { result ≡ length rows }
    ensures rows { RowsStand }
{
    16
}

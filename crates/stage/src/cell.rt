// A register as a kind of hardware keeps it, and the adder over two of them.
ghost use Rattle.std.specs.Prelude.{◌≡◌, ℕ, ◌≤◌, ℤ, ◌+ℤ◌};
ghost use Rattle.std.specs.Option.{option_map};
ghost use Rattle.stage.specs.Word.{shifted, in_word};
ghost use Rattle.stage.specs.Step.{signed};

use super::shift::Shift;
use super::step::Direction;

pub trait Cell: Copy {
    // Ticks in one step, a constant of the kind.
    const TICKS: u32;

    ghost TICKS: { ℕ };

    // the word that it keeps
    ghost kept: { Self → ℤ };

    fn new(word: i32) -> Self
        ensures answer { kept result ≡ word };

    fn word(self) -> i32
        ensures answer { result ≡ kept self };

    // a + d · shift(b), if that is a word.
    fn add(self, b: Self, shift: Shift, direction: Direction) -> Option<Self>
        ensures answer { option_map kept result ≡ in_word (kept self +ℤ signed direction (shifted (kept b) shift.amount)) };

    ghost ticking: { 1 ≤ TICKS };
}

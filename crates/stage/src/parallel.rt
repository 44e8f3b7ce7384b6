// The parallel kind of hardware: word arithmetic, one step in one tick.
ghost use Rattle.std.specs.Prelude.{◌≡◌, ◌+ℤ◌};
ghost use Rattle.stage.specs.Word.{shifted, in_word};
ghost use Rattle.stage.specs.Step.{signed};
ghost use Rattle.std.proofs.Common.{rules};

use super::cell::Cell;
use super::hardware::Hardware;
use super::shift::Shift;
use super::step::Direction;

// A register kept as a word.
#[derive(Clone, Copy)]
pub struct Word {
    word: i32,
}

pub type Parallel = Hardware<Word>;

// floor (v / 2^s): the arithmetic shift
fn shift(v: i32, s: Shift) -> i32
    ensures answer { result ≡ shifted v s.amount }
{
    v >> s.amount
}

// a + d·v, if that is a word. The sum of two words needs 33 bits. (`checked_add` compares the operands, which takes more than twice
// the instructions.)
fn sum(a: i32, v: i32, d: Direction) -> Option<i32>
    ensures answer { result ≡ in_word (a +ℤ signed d v) }
{
    let (a, v) = (i64::from(a), i64::from(v));
    let exact = match d {
        Direction::Plus => a + v,
        Direction::Minus => a - v,
    };
    i32::try_from(exact).ok()
}

impl Cell for Word {
    const TICKS: u32 = 1;

    ghost TICKS = { 1 };

    ghost kept = { λ w. w.word };

    ghost ticking = { Prim.search rules };

    fn new(word: i32) -> Word {
        Word { word }
    }

    fn word(self) -> i32 {
        self.word
    }

    fn add(self, b: Word, s: Shift, d: Direction) -> Option<Word> {
        let word = sum(self.word, shift(b.word, s), d)?;
        Some(Word { word })
    }
}

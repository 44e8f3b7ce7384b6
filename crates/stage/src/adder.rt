// The serial adder: K bits in a tick, N ticks in a word, the low digit first. Each digit hands its carry to the next.
ghost use Rattle.std.specs.Prelude.{◌≡◌, ◌+◌, ◌/◌, ◌%◌, ◌^◌, ◌<◌, ◌≤◌, ◌+ℤ◌};
ghost use Rattle.std.proofs.Common.{to_z};
ghost use Rattle.std.specs.Int.{w32};
ghost use Rattle.stage.specs.Word.{shifted, in_word};
ghost use Rattle.stage.specs.Step.{signed};
ghost use Rattle.stage.specs.Adder.{Digits, wide, digit_of, digit_sum};

use super::bits::Bits;
use super::shift::Shift;
use super::step::Direction;

// What one digit comes to: its sum, the carry out of it, and the carry into its top place.
#[derive(Clone, Copy)]
struct Added {
    digit: u32,
    carry: u32,
    into: u32,
}

// The digit that begins at a place.
fn digit<const K: u32>(word: u32, place: u32) -> u32
    requires { (K < 32) × (place < 32) }
    ensures answer { result ≡ word / 2 ^ place % 2 ^ K }
{
    (word >> place) & ((1 << K) - 1)
}

// The operand's digit that begins at a place, or its complement. (A bool, since it is a wire of the adder, told once for all digits.)
fn operand_digit<const K: u32>(b: Bits, place: u32, complement: bool) -> u32
    requires { (K < 31) × (place + K ≤ 64) }
    ensures answer { result ≡ digit_of complement (wide b.bits) place K }
{
    let mut q = 0;
    for j in 0..K {
        q |= b.bit(place + j) << j;
    }
    if complement { (1 << K) - 1 - q } else { q }
}

fn add_digit<const K: u32>(p: u32, q: u32, carry: u32) -> Added
    requires { (1 ≤ K) × ((K < 31) × ((p < 2 ^ K) × ((q < 2 ^ K) × (carry ≤ 1)))) }
    ensures answer { result ≡ digit_sum K p q carry }
{
    let total = p + q + carry;
    let below = (1 << (K - 1)) - 1;
    Added {
        digit: total & ((1 << K) - 1),
        carry: total >> K,
        into: ((p & below) + (q & below) + carry) >> (K - 1),
    }
}

// The word a and the operand shifted, or less it, if that is a word; a subtraction adds the complement with a first carry of 1.
// It is none where the carry into the top place differs from the carry out of it.
pub(crate) fn add_serially<const K: u32, const N: u32>(
    a: u32,
    b: Bits,
    s: Shift,
    d: Direction,
) -> Option<i32>
    requires { Digits K N }
    ensures answer { result ≡ in_word (to_z w32 a +ℤ signed d (shifted (to_z w32 b.bits) s.amount)) }
{
    let complement = d.is_minus();
    let mut word = 0;
    let mut carry = u32::from(complement);
    let mut into = 0;
    for i in 0..N {
        let place = i * K;
        let p = digit::<K>(a, place);
        let q = operand_digit::<K>(b, place + s.amount, complement);
        let added = add_digit::<K>(p, q, carry);
        word |= added.digit << place;
        carry = added.carry;
        into = added.into;
    }
    if into != carry {
        return None;
    }
    Some(word.cast_signed())
}

// A shift amount: 0 to 31, whoever made it.
ghost use Rattle.std.specs.Prelude.{◌≡◌, ◌%◌, ◌<◌, ◌≤◌, min, MatchOption};

#[derive(Clone, Copy, PartialEq, Eq, Debug)]
pub struct Shift {
    pub amount: u32,
    pub ghost within: { amount ≤ 31 },
}

impl Shift {
    pub const NONE: Shift = Shift { amount: 0 };

    // The shift of this amount, or none where a word has no such place.
    pub fn new(amount: u32) -> Option<Shift>
        ensures answer { MatchOption result (31 < amount) (λ s. s.amount ≡ amount) }
    {
        if amount > 31 {
            return None;
        }
        Some(Shift { amount })
    }

    // The shift of this amount, or of 31 where it is larger.
    pub fn capped(amount: u32) -> Shift
        ensures answer { result.amount ≡ min amount 31 }
    {
        Shift {
            amount: amount.min(31),
        }
    }

    // The shift of this amount modulo 32, which is how the machine reads a shift amount, so that making it costs nothing.
    pub fn wrapping(amount: u32) -> Shift
        ensures answer { result.amount ≡ amount % 32 }
    {
        Shift {
            amount: amount % 32,
        }
    }

    pub fn amount(self) -> u32
        ensures answer { result ≡ self.amount }
    {
        self.amount
    }
}

// A signed number as a magnitude and whether it is negative: what is stated and proved of signed values goes by these two. All other
// crates use this form; only the 3-phase sum adds signed numbers.
#![tactic(auto)]

ghost use Rattle.std.specs.Prelude.{◌≡◌};
ghost use Rattle.signed.specs.Signs.{signed_of, above_of, below_of};

#[derive(Clone, Copy, Debug, PartialEq, Eq)]
pub struct Signed {
    pub negative: bool,
    // In the unit of the number.
    pub magnitude: u64,
}

impl From<i64> for Signed {
    ghost from_gives = { λ number signed. signed ≡ signed_of number };

    fn from(number: i64) -> Signed {
        Signed {
            negative: number.is_negative(),
            magnitude: number.unsigned_abs(),
        }
    }
}

impl Signed {
    // The number if it is positive, else 0.
    pub fn above(self) -> u64
        ensures { result ≡ above_of self }
    {
        if self.negative { 0 } else { self.magnitude }
    }

    // The magnitude of the number if it is negative, else 0.
    pub fn below(self) -> u64
        ensures { result ≡ below_of self }
    {
        if self.negative { self.magnitude } else { 0 }
    }
}

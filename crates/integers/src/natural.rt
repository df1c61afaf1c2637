// The reader of a number without a sign, up to a last one, one byte at a time.
ghost use Rattle.std.specs.Prelude.{◌≡◌, List, [], ◌∷◌, ◌++◌, ◌+◌, ℕ};
ghost use Rattle.integers.specs.Naturals.{NumberUpTo, FormUpTo};
ghost use Rattle.integers.specs.NaturalScan.{NaturalReached, grown, natural_viable, natural_unspaced};

use forms::{Digit, Scanner, Word};

// A number of at most nine digits.
pub type NineDigits = Natural<999_999_999>;

// A number of at most two digits.
pub type TwoDigits = Natural<99>;

// A number up to LAST, as far as it is read: nothing yet, or some digits.
#[derive(Clone, Copy)]
pub enum Natural<const LAST: u32> {
    Nothing,
    Number(u32),
}

impl<const LAST: u32> Natural<LAST> {
    // The number with one digit more, `None` behind a zero, which is a number of its own.
    fn grown(self, digit: Digit) -> Option<u64>
        ensures { result ≡ grown self.entry digit }
    {
        let digit = u64::from(digit.value());
        match self {
            Natural::Nothing => Some(digit),
            Natural::Number(0) => None,
            Natural::Number(number) => Some(10 * u64::from(number) + digit),
        }
    }
}

impl<const LAST: u32> Scanner for Natural<LAST> {
    type Said = u32;

    ghost Says = { λ bs n. NumberUpTo LAST n bs };

    ghost Form = { FormUpTo LAST };

    ghost Reached = { NaturalReached LAST };

    fn start() -> Natural<LAST> {
        Natural::Nothing
    }

    fn step(self, byte: u8) -> Option<Natural<LAST>> {
        let number = self.grown(Digit::of(byte)?)?;
        if number > u64::from(LAST) {
            return None;
        }
        Some(Natural::Number(number as u32))
    }

    fn end(self) -> Option<u32> {
        match self {
            Natural::Nothing => None,
            Natural::Number(number) => Some(number),
        }
    }

    ghost said = { λ bs n says. (n, says) };

    ghost viable = { natural_viable LAST };
}

impl<const LAST: u32> Word for Natural<LAST> {
    ghost unspaced = { natural_unspaced LAST };
}

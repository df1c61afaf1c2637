// The reader of a number, one byte at a time.
ghost use Rattle.std.specs.Prelude.{List, [], ◌∷◌, ◌++◌, ◌+◌, SomeIff, ℕ};
ghost use Rattle.arith.specs.Words.{InWord};
ghost use Rattle.integers.specs.Form.{Integer, Form};
ghost use Rattle.integers.specs.Scan.{Reached, Continued, longer, viable};

use forms::{Digit, Scanner};

// A number as far as it is read: nothing yet, its minus alone, or digits too.
#[derive(Clone, Copy)]
pub(crate) enum Part {
    Nothing,
    Minus,
    Number(i64),
}

impl Part {
    // The number with one digit more, `None` where no number goes on so.
    fn with_digit(self, digit: Digit) -> Option<i64>
        ensures { (bs : List ℕ) → Reached bs self → Continued (bs ++ (48 + digit) ∷ []) result }
    {
        let value = i64::from(digit.value());
        match self {
            Part::Nothing => Some(value),
            Part::Minus if value == 0 => None,
            Part::Minus => Some(-value),
            // a zero is a number of its own
            Part::Number(0) => None,
            Part::Number(number) => longer(number, digit),
        }
    }
}

// The most that a number is, on either side of 0, if a word holds ten times as much.
const MOST_TENS: i64 = i64::MAX / 10;

// A number with one digit more on its own side of 0, if a word holds it.
fn longer(number: i64, digit: Digit) -> Option<i64>
    ensures { SomeIff result (InWord (longer number digit)) (longer number digit) }
{
    if !(-MOST_TENS..=MOST_TENS).contains(&number) {
        return None;
    }
    let tens = 10 * number;
    let units = i64::from(digit.value());
    if number < 0 {
        tens.checked_sub(units)
    } else {
        tens.checked_add(units)
    }
}

impl Scanner for Part {
    type Said = i64;

    ghost Says = { λ bs z. Integer z bs };

    ghost Form = { Form };

    ghost Reached = { Reached };

    fn start() -> Part {
        Part::Nothing
    }

    fn step(self, byte: u8) -> Option<Part> {
        match (self, byte) {
            (Part::Nothing, b'-') => Some(Part::Minus),
            _ => self.with_digit(Digit::of(byte)?).map(Part::Number),
        }
    }

    #[tactic(auto, using(crate::proofs::Texts::short_off))]
    fn end(self) -> Option<i64> {
        match self {
            Part::Number(number) => Some(number),
            _ => None,
        }
    }

    ghost said = { λ bs z says. (z, says) };

    ghost viable = { viable };
}

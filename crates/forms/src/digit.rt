// Decimal digits.
ghost use Rattle.std.specs.Prelude.{◌≡◌, ℕ, ◌≤◌};
ghost use Rattle.forms.specs.Digits.{digit};

use std::marker::Model;

// A number from 0 to 9.
#[derive(Clone, Copy)]
pub struct Digit {
    value: u8,
}

impl Model for Digit {
    ghost Value = { ℕ };

    ghost view = { λ d. d.value };

    ghost invariant = { λ d. d.value ≤ 9 };

    ghost inverse = { λ n. record { value = n } };
}

impl Digit {
    // The digit that a byte is.
    pub fn of(byte: u8) -> Option<Digit>
        ensures { result ≡ digit byte }
    {
        match byte {
            b'0'..=b'9' => Some(Digit { value: byte - b'0' }),
            _ => None,
        }
    }

    pub fn value(self) -> u8
        ensures same { result ≡ self }
        ensures small { result ≤ 9 }
    {
        self.value
    }
}

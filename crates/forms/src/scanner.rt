// Reads bytes of a form, one at a time.
ghost use Rattle.std.specs.Prelude.{◌≡◌, ℕ, List, [], ◌∷◌, ◌++◌, None, MatchOption, MatchResult};
ghost use Rattle.forms.specs.Breaking.{Viable, BrokenAt};

use crate::error::FormError;

// What is read of some bytes, as far as it matters to how they may go on.
pub trait Scanner: Copy {
    type Said;

    // The bytes say this.
    ghost Says: { List ℕ → Self.Said → Type 0 };

    // The bytes have the form.
    ghost Form: { List ℕ → Type 0 };

    // The bytes, read from their start, lead here.
    ghost Reached: { List ℕ → Self → Type 0 };

    fn start() -> Self
        ensures { Reached [] result };

    // One byte more, `None` where nothing of the form goes on so.
    fn step(self, byte: u8) -> Option<Self>
        ensures { (bs : List ℕ) → Reached bs self → MatchOption result (¬ Viable Form (bs ++ byte ∷ [])) (Reached (bs ++ byte ∷ [])) };

    // The same in place; where nothing goes on so, it stays as it was. A scanner that holds more than a step changes writes its own.
    fn advance(&mut self, byte: u8) -> Option<()>
        ensures step { (bs : List ℕ)
            → Reached bs self.old
            → MatchOption result (¬ Viable Form (bs ++ byte ∷ [])) (λ _. Reached (bs ++ byte ∷ []) self.new) }
        ensures kept { result ≡ None → self.new ≡ self.old }
    {
        *self = self.step(byte)?;
        Some(())
    }

    // What the bytes say that led here, `None` where they are too few.
    fn end(self) -> Option<Self::Said>
        ensures { (bs : List ℕ) → Reached bs self → MatchOption result (¬ Form bs) (Says bs) };

    // Bytes that say something have the form.
    ghost said: { (bs : List ℕ) (said : Self.Said) → Says bs said → Form bs };

    // Bytes that lead somewhere go on to bytes of the form.
    ghost viable: { (bs : List ℕ) (scanner : Self) → Reached bs scanner → Viable Form bs };
}

// What the bytes say, or the first byte after which nothing of the form can follow, the length where they stop short.
pub fn read<S: Scanner>(bytes: &[u8]) -> Result<S::Said, FormError>
    ensures { MatchResult result (S.Says bytes.now) (λ e. BrokenAt S.Form bytes.now e.place) }
{
    let mut scanner = S::start();
    for (place, byte) in bytes.iter().enumerate() {
        scanner.advance(*byte).ok_or(FormError { place })?;
    }
    scanner.end().ok_or(FormError { place: bytes.len() })
}

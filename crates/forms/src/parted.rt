// Reads two parts with a space between them.
ghost use Rattle.std.specs.Prelude.{◌≡◌, ℕ, List, [], ◌∷◌, ◌++◌};
ghost use Rattle.forms.specs.Breaking.{Viable};
ghost use Rattle.forms.specs.Parts.{SpaceBetween, Reached, parted_viable};

use crate::scanner::Scanner;

// A scanner of a form that has no space in it, so that a space ends it.
pub trait Word: Scanner {
    // No bytes of the form begin with bytes that end in a space.
    ghost unspaced: { (bs : List ℕ) → ¬ Viable Self.Form (bs ++ 32 ∷ []) };
}

// Two parts as far as they are read. Before the space nothing is read of the second, and behind it the first is whole.
#[derive(Clone, Copy)]
pub enum Parted<S, T> {
    First(S, T),
    Second(S, T),
}

impl<S: Word, T: Scanner> Scanner for Parted<S, T>
where
    S::Said: Drop,
{
    type Said = (S::Said, T::Said);

    ghost Says = { λ bs said. SpaceBetween (λ x. S.Scanner.Says x said.0) (λ y. T.Scanner.Says y said.1) bs };

    ghost Form = { SpaceBetween S.Scanner.Form T.Scanner.Form };

    ghost Reached = { Reached S.Scanner.Form S.Scanner.Reached T.Scanner.Reached };

    fn start() -> Parted<S, T> {
        Parted::First(S::start(), T::start())
    }

    fn step(self, byte: u8) -> Option<Parted<S, T>> {
        match self {
            Parted::First(first, second) if byte == b' ' => {
                first.end()?;
                Some(Parted::Second(first, second))
            }
            Parted::First(first, second) => Some(Parted::First(first.step(byte)?, second)),
            Parted::Second(first, second) => Some(Parted::Second(first, second.step(byte)?)),
        }
    }

    fn end(self) -> Option<(S::Said, T::Said)> {
        match self {
            Parted::First(_, _) => None,
            Parted::Second(first, second) => Some((first.end()?, second.end()?)),
        }
    }

    ghost said = { λ bs said says. record { front = says.front; back = says.back; whole = says.whole; before = S.Scanner.said says.front said.0 says.before; behind = T.Scanner.said says.back said.1 says.behind } };

    ghost viable = { parted_viable S.Scanner.Form T.Scanner.Form S.Scanner.Reached T.Scanner.Reached S.Scanner.viable T.Scanner.viable };
}

// Reads a line that begins with fixed bytes.
ghost use Rattle.std.specs.Prelude.{◌≡◌, ℕ, List};
ghost use Rattle.forms.specs.Keys.{KeyThen, Reached, keyed_viable};

use crate::scanner::Scanner;
use std::marker::PhantomData;

// A kind of line, which names the bytes that it begins with.
pub trait Key {
    ghost key: { List ℕ };

    fn key() -> &'static [u8]
        ensures { result.now ≡ key };
}

// A line as far as it is read: how many bytes of its key, and what follows the key.
#[derive_where(Clone, Copy; S)]
pub struct Keyed<K, S> {
    place: usize,
    scanner: S,
    kind: PhantomData<K>,
}

impl<K: Key, S: Scanner> Scanner for Keyed<K, S> {
    type Said = S::Said;

    ghost Says = { λ bs said. KeyThen K.Key.key (λ rest. S.Scanner.Says rest said) bs };

    ghost Form = { KeyThen K.Key.key S.Scanner.Form };

    ghost Reached = { Reached K.Key.key S.Scanner.Reached };

    fn start() -> Keyed<K, S> {
        Keyed {
            place: 0,
            scanner: S::start(),
            kind: PhantomData,
        }
    }

    fn step(self, byte: u8) -> Option<Keyed<K, S>> {
        match K::key().get(self.place) {
            Some(expected) if *expected == byte => Some(Keyed {
                place: self.place + 1,
                ..self
            }),
            Some(_) => None,
            None => Some(Keyed {
                scanner: self.scanner.step(byte)?,
                ..self
            }),
        }
    }

    fn end(self) -> Option<S::Said> {
        if self.place < K::key().len() {
            return None;
        }
        self.scanner.end()
    }

    ghost said = { λ bs said says. record { rest = says.rest; whole = says.whole; holds = S.Scanner.said says.rest said says.holds } };

    ghost viable = { keyed_viable K.Key.key S.Scanner.Form S.Scanner.Reached S.Scanner.viable };
}

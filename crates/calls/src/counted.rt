// Reads any bytes, and counts them.
ghost use Rattle.calls.specs.Counts.{Counts};
ghost use Rattle.std.specs.Prelude.{List, [], ◌∷◌, ◌++◌, ℕ};

use forms::Scanner;

// So many bytes.
#[derive(Clone, Copy)]
pub(crate) struct Counted {
    bytes: usize,
}

impl Scanner for Counted {
    type Said = usize;

    ghost Says = { Counts };

    ghost Form = { λ bs. Unit {0} };

    ghost Reached = { λ bs counted. Counts bs counted.bytes };

    fn start() -> Counted {
        Counted { bytes: 0 }
    }

    fn step(self, _byte: u8) -> Option<Counted> {
        Some(Counted {
            bytes: self.bytes.saturating_add(1),
        })
    }

    fn end(self) -> Option<usize> {
        Some(self.bytes)
    }

    ghost said = { λ bs n counts. tt };

    ghost viable = { λ bs counted reached. ([], tt) };
}

// Why bytes are turned down that have not the form.

// The first byte after which no bytes of the form can follow, counted from 0; the length where they stop short.
#[derive(Clone, Copy, Debug, PartialEq, Eq)]
pub struct FormError {
    pub place: usize,
}

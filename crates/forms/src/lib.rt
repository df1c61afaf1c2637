// Forms of text, where bytes break them, and a reader for every form that is read byte by byte.
#![tactic(auto)]

mod digit;
mod error;
mod first;
mod keyed;
mod parted;
mod scanner;

pub use digit::Digit;
pub use error::FormError;
pub use first::first_line;
pub use keyed::{Key, Keyed};
pub use parted::{Parted, Word};
pub use scanner::{Scanner, read};

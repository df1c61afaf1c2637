// Whole numbers as text: of 64 bits as lines, and without a sign as parts of lines.
#![tactic(auto)]

mod natural;
mod reader;
mod scan;

pub use natural::{Natural, NineDigits, TwoDigits};
pub use reader::read_integer;

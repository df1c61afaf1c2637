// The wiring sheet of a block, written and read.
#![tactic(auto)]

mod calls;
mod gathered;
mod writer;

pub use calls::{read, write};

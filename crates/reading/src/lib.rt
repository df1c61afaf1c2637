// Reading a wiring sheet, line by line, up to the first cause to turn it down.
#![tactic(auto)]

mod codes;
mod laws;
mod limits;
mod lists;
mod reader;

pub use laws::limits_are_tested;
pub use reader::read_block;

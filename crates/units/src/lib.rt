// Lines that give the unit prices of a per-bit list.
#![tactic(auto)]

mod reader;

pub use reader::read_units;

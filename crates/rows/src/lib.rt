// Rows: what a select code makes of a sample, adder by adder.
#![tactic(auto)]

mod laws;
mod model;
mod rules;

pub use laws::reading_is_tested;
pub use model::Row;

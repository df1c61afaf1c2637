// Running rows: one runner for every arithmetic.
#![tactic(auto)]

mod results;
mod runner;

pub use runner::{run, run_all};

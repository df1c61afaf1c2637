// Chains of adders: read from a line, judged by their rules, and valued.
#![tactic(auto)]

mod model;
mod rules;

pub use model::Chain;

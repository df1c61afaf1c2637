// A search for the cheapest of all ways to choose step by step, with what is paid so far as its bound.
#![tactic(auto)]

mod choices;
mod found;
mod steps;

pub use choices::ChoiceList;
pub use found::Found;
pub use steps::{Steps, cheapest};

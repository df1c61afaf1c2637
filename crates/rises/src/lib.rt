// What one row more would cost at each part of a block, so that nothing else of the block need be priced again.
#![tactic(auto)]

mod held;
mod uses;

pub use held::{HeldAdder, HeldPort, Way};
pub use uses::{ValuedAdder, ValuedOperand};

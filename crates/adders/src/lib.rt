// Adders and what they read, their values for a sample of 1, and why a call is turned down.
#![tactic(auto)]

mod list;
mod refusals;
mod values;
mod wiring;

pub use list::AdderList;
pub use refusals::{LineRefusal, Refusal, RowFault};
pub use values::{
    output_value, rules_say_what_adders_keep, slot_values, values_follow_their_adders,
};
pub use wiring::{Adder, Operand, Sign};

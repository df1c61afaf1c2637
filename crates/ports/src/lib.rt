// Ports: where operands enter, and which inputs the live rows of a block put there.
#![tactic(auto)]

mod inputs;
mod laws;
mod list;
mod port;

pub use laws::{inputs_are_what_rows_put, some_rows_put_some_inputs};
pub use list::InputList;
pub use port::Port;

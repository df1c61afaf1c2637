// Calls on a block by their arguments, and readers of the lines that say them.
#![tactic(auto)]

mod call;
mod counted;
mod reader;
mod width;
mod words;

pub use call::{Call, SuppliedList, Unread};
pub use reader::read_call;
pub use width::read_width;

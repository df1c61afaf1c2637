// The keys and the text of a wiring sheet, and readers of its pieces and lines.
#![tactic(auto)]

pub mod keys;
mod laws;
mod listing;
mod lists;
mod pieces;
mod selection;

pub use laws::{what_is_taken_is_the_text, what_is_written_is_read};
pub use listing::Listing;
pub use lists::{port_line, selections};
pub use pieces::{number_line, skip};
pub use selection::{Selection, Selections};

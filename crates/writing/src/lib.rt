// Writing the text of a wiring sheet, piece by piece, to a text in place.
#![tactic(auto)]

mod pieces;
mod text;

pub use text::SheetText;

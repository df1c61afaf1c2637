// The form of a chain line, and its reader: the adders and the output shift that a line says, or the byte where its form breaks.
#![tactic(auto)]

mod draft;
mod reader;
mod scan;

pub use draft::Draft;
pub use draft::reading::lines_have_one_reading;

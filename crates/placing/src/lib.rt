// Placements of a chain's adders among those of a block.
#![tactic(auto)]

mod laws;
mod placed;

pub use laws::placements_leave_one_block;
pub use placed::placed_row;

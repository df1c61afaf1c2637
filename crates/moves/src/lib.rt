// Moving the shifts of one adder: its own two rise by an amount, and whatever reads it falls by as much.
#![tactic(auto)]

mod laws;
mod model;

pub use laws::moving_scales_one_value;
pub use model::ShiftMove;

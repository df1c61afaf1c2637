// Fusing: a chain at an idle code of a block, as cheaply as any placement allows.
#![tactic(auto)]

mod fused;
mod laws;
mod task;

pub use fused::fuse;
pub use laws::{
    causes_are_told_in_order, fusing_is_determined, operands_in_place_are_not_swapped,
    swaps_have_to_pay,
};

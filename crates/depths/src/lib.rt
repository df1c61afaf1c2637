// Depths: how many adders and two-way multiplexers stand one behind the other.
#![tactic(auto)]

mod laws;
mod recursion;

pub use laws::{
    depths_follow_their_rules, retiring_never_makes_a_block_deeper,
    rows_never_make_a_block_shallower,
};
pub use recursion::{adder_depth, depth, port_depth};

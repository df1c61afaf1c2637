// The parts that a block takes, and what it costs under a price list.
#![tactic(auto)]

mod laws;
mod net;
mod parts;
mod saving;
mod sums;

pub use laws::{
    an_operand_in_place_changes_nothing, one_row_changes_each_part_alone, parts_are_what_rows_use,
    retiring_never_makes_a_block_dearer, rows_never_make_a_block_cheaper,
};
pub use net::Net;
pub use net::widths::operand_value;
pub use parts::{SignsMet, adder_at, multiplexer_at};
pub use saving::retire;
pub use sums::price;

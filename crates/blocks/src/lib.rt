// Blocks: sixteen select codes over at most eight shared adders.
#![tactic(auto)]

mod laws;
mod model;

pub use laws::{a_block_is_what_it_has, constants_decide_answers, steps_follow_the_book};
pub use model::Block;

// A block that was founded, and what a move made of it.
ghost use Rattle.std.specs.Prelude.{◌≡◌, true, is_some};
ghost use Rattle.blocks.specs.Blocks.{constant_at};

use adders::Refusal;
use blocks::Block;

pub mod calls;

// The block before the move and after it, and how the move was answered.
#[derive(Clone, Copy)]
pub struct Trial {
    code: usize,
    before: Block,
    after: Block,
    outcome: Result<(), Refusal>,
    ghost live: { is_some (constant_at before code) ≡ true },
    ghost kept: { constant_at after code ≡ constant_at before code },
}

// What holds of every block and of every call.
ghost use Rattle.blocks.specs.Blocks.{AllThatABlockHas};
ghost use Rattle.blocks.specs.Books.{StepsFollowBook};
ghost use Rattle.blocks.specs.Runs.{ConstantsDecide};

use arith::Arithmetic;

// Whatever keeps to the rules of a call keeps to the plain book too.
pub fn steps_follow_the_book()
    ensures { StepsFollowBook }
{}

// In every arithmetic, blocks whose codes have the same constants answer alike at every code.
#[tactic(auto, using(crate::proofs::Runs::constants_decide))]
pub fn constants_decide_answers<X: Arithmetic>()
    ensures { ConstantsDecide X.means X.operations X.Product }
{}

// A block is its adder count, its width and its rows.
#[tactic(auto, using(crate::proofs::Same::all_that_a_block_has))]
pub fn a_block_is_what_it_has()
    ensures { AllThatABlockHas }
{}

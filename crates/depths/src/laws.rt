// What depths are.
ghost use Rattle.depths.specs.DepthLaws.{DepthsFollow};
ghost use Rattle.depths.specs.Fewer.{RowsNeverShallower, CallsNeverShallower};

// The depths of a block's adders and ports follow their rules, and nothing else does.
#[tactic(auto, using(crate::proofs::Rules::depths_follow))]
pub fn depths_follow_their_rules()
    ensures { DepthsFollow }
{}

// A block with some of the rows of another is nowhere deeper: at no adder, at no port, and not as a whole.
pub fn rows_never_make_a_block_shallower()
    ensures { RowsNeverShallower }
{}

// Retiring never makes a block deeper, and adding a row never makes it shallower.
#[tactic(auto, using(crate::proofs::Fewer::calls_never_shallower))]
pub fn retiring_never_makes_a_block_deeper()
    ensures { CallsNeverShallower }
{}

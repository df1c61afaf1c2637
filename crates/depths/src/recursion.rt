// The depths of adders and ports, each by the other.
ghost use Rattle.std.specs.Prelude.{◌≡◌, ◌≤◌};
ghost use Rattle.depths.specs.Depths.{adder_depth, port_depth, block_depth};

use bits::bits;
use blocks::Block;
use ports::Port;

// The depth of a block: that of its output.
pub fn depth(block: &Block) -> usize
    ensures { result ≡ block_depth block.now }
{
    port_depth(block, Port::Output)
}

// The depth of an adder: one more than its deeper port's. The sample and an adder that no row uses have no inputs.
#[cycle(depths)]
#[tactic(auto, using(crate::proofs::Rounds::unused_is, crate::proofs::Rounds::used_is, crate::proofs::Rounds::port_few))]
pub fn adder_depth(block: &Block, adder: usize) -> usize
    ensures { result ≡ adder_depth block.now adder }
{
    if Port::Left(adder).inputs(block).as_slice().is_empty() {
        return 0;
    }
    let left = port_depth(block, Port::Left(adder));
    let right = port_depth(block, Port::Right(adder));
    1 + left.max(right)
}

// The depth of a port: its multiplexer's levels behind its deepest source.
#[cycle(depths)]
#[tactic(auto, using(crate::proofs::Rounds::deepest_few, crate::proofs::Deepest::depth_is, crate::proofs::Sources::source_low))]
pub fn port_depth(block: &Block, port: Port) -> usize
    ensures { result ≡ port_depth block.now port }
{
    let inputs = port.inputs(block);
    let mut last_source = None;
    let mut deepest = 0;
    for input in inputs.as_slice() {
        // inputs of one source stand side by side, and its depth is asked for once
        if last_source != Some(input.source) {
            last_source = Some(input.source);
            deepest = adder_depth(block, input.source as usize).max(deepest);
        }
    }
    bits(inputs.len() as u32) as usize + deepest
}

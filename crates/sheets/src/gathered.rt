// The inputs of the ports of a block, gathered once for all lines of its sheet.
ghost use Rattle.std.specs.Prelude.{◌≡◌, ℕ, ◌≤◌, [], length, slice_index_or};
ghost use Rattle.ports.specs.declared.port.Port.TheVariants.{Left, Right, Output};
ghost use Rattle.ports.specs.Inputs.{inputs};

use adders::Operand;
use blocks::Block;
use ports::{InputList, Port};

// A block, and at each adder's number the inputs of its left and of its right port. Adders are counted from 1, so that nothing is at 0.
#[derive(Drop)]
pub struct PortInputs<'a> {
    pub block: &'a Block,
    left: [InputList; 9],
    right: [InputList; 9],
    output: InputList,
    ghost lefts: { (adder : ℕ) → slice_index_or left adder [] ≡ inputs block.now (Left adder) },
    ghost rights: { (adder : ℕ) → slice_index_or right adder [] ≡ inputs block.now (Right adder) },
    ghost outputs: { output ≡ inputs block.now Output },
}

impl<'a> PortInputs<'a> {
    pub fn new(block: &'a Block) -> PortInputs<'a>
        ensures { result.block.now ≡ block.now }
    {
        PortInputs {
            block,
            left: std::array::from_fn(
                |adder| -> InputList
                    ensures { result ≡ inputs block.entry.now (Left adder) }
                { inputs_of(block, Port::Left(adder)) },
            ),
            right: std::array::from_fn(
                |adder| -> InputList
                    ensures { result ≡ inputs block.entry.now (Right adder) }
                { inputs_of(block, Port::Right(adder)) },
            ),
            output: Port::Output.inputs(block),
        }
    }

    // The inputs of a port.
    pub fn at(&self, port: Port) -> &[Operand]
        ensures items { result.now ≡ inputs self.now.block.now port }
        ensures few { length result.now ≤ 16 }
    {
        match port {
            Port::Left(adder) => listed(&self.left, adder),
            Port::Right(adder) => listed(&self.right, adder),
            Port::Output => self.output.as_slice(),
        }
    }
}

// The inputs of a port. No row is looked at for an adder that the block has not.
#[tactic(auto, using(crate::proofs::Gathering::left_past, crate::proofs::Gathering::right_past))]
fn inputs_of(block: &Block, port: Port) -> InputList
    ensures { result ≡ inputs block.now port }
{
    match port {
        Port::Left(adder) | Port::Right(adder) if adder > block.adders() => InputList::new(),
        _ => port.inputs(block),
    }
}

// The inputs at a number, none past the last.
fn listed(lists: &[InputList], number: usize) -> &[Operand]
    ensures items { result.now ≡ slice_index_or lists.now number [] }
    ensures few { length result.now ≤ 16 }
{
    match lists.get(number) {
        Some(list) => list.as_slice(),
        None => &[],
    }
}

// The wires that leave adders and multiplexers, and how many bits wide each is.
ghost use Rattle.std.specs.Prelude.{◌≡◌, ◌≤◌, IfSome};
ghost use Rattle.adders.specs.Rules.{InRange};
ghost use Rattle.blocks.specs.Blocks.{row_of};
ghost use Rattle.ports.specs.Ports.{operand_at};
ghost use Rattle.pricing.specs.Nets.{operand_value, value_on, largest_on, width_of};

use super::Net;
use bits::bits;
use blocks::Block;
use ports::Port;
use rows::Row;

// The value of the operand that a row puts at a port.
#[tactic(auto, using(crate::proofs::Operands::put_low, crate::proofs::Operands::put_shift, crate::proofs::Operands::put_value, crate::proofs::Operands::put_range))]
pub fn operand_value(row: &Row, port: Port) -> Option<u32>
    ensures value { result ≡ operand_value row.now (operand_at row.now port) }
    ensures range { IfSome result InRange }
{
    let operand = port.operand_of(row)?;
    let values = row.values();
    Some(values[operand.source as usize] << operand.shift)
}

impl Net {
    // What a sample of 1 becomes there by the row at a code, none where the code is idle or its row does not use the part.
    fn value_of(self, block: &Block, code: usize) -> Option<u32>
        ensures value { result ≡ value_on (row_of block.now code) self }
        ensures range { IfSome result InRange }
    {
        let row = block.row(code).ok()?;
        match self {
            Net::OfAdder(adder) => row.value(adder),
            Net::OfPort(port) => operand_value(&row, port),
        }
    }

    // The largest of these values over the live rows, 0 where none uses the part.
    #[tactic(auto, using(crate::proofs::Columns::none_yet, crate::proofs::Columns::value_more, crate::proofs::Columns::no_value))]
    pub fn largest(self, block: &Block) -> u32
        ensures value { result ≡ largest_on block.now self }
        ensures few { result ≤ 2147483647 }
    {
        let mut largest = 0;
        for code in (0..16).rev() {
            if let Some(value) = self.value_of(block, code) {
                largest = value.max(largest);
            }
        }
        largest
    }

    // How many bits wide it is: a sample's bits and those of its largest value.
    pub fn width(self, block: &Block) -> u32
        ensures width { result ≡ width_of block.now self }
        ensures range { (1 ≤ result) × (result ≤ 63) }
    {
        block.width() as u32 + bits(self.largest(block))
    }
}

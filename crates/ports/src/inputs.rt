// The inputs of the ports of a block.
ghost use Rattle.std.specs.Prelude.{◌≡◌, ◌≤◌, length};
ghost use Rattle.ports.specs.Ports.{put_at};
ghost use Rattle.ports.specs.Inputs.{inputs};
ghost use Rattle.blocks.specs.Blocks.{row_of};

use crate::list::InputList;
use crate::port::Port;
use adders::Operand;
use blocks::Block;

impl Port {
    // The operand that the row at a code puts there, none where there is no row or it does not use the port.
    pub fn operand_at(self, block: &Block, code: usize) -> Option<Operand>
        ensures { result ≡ put_at (row_of block.now code) self }
    {
        self.operand_of(&block.row(code).ok()?)
    }

    // What live rows put there, each operand once, ascending by source and then by shift.
    pub fn inputs(self, block: &Block) -> InputList
        ensures { result ≡ inputs block.now self }
    {
        let mut list = InputList::new();
        for code in (0..16).rev() {
            if let Some(operand) = self.operand_at(block, code) {
                list = list.with(operand);
            }
        }
        list
    }
}

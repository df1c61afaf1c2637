// Reading a whole sheet.
ghost use Rattle.std.specs.Prelude.{◌≡◌, ◌≤◌};
ghost use Rattle.ports.specs.Ports.{ports};
ghost use Rattle.reading.specs.Orders.{lists_of};
ghost use Rattle.reading.specs.Data.{said, rows_of};
ghost use Rattle.reading.specs.Reader.{read_block, check_ports, read_sheet};
ghost use Rattle.reading.specs.Answers.{Gives};

use crate::limits::{all_among, number_within};
use crate::lists::PortLists;
use adders::Refusal;
use blocks::Block;
use ports::Port;
use texts::{keys, skip};

// The most bytes of a sheet that is read.
const MOST_BYTES: usize = 4096;

// The first line of the ports; the block's adders and the sample's width stand before.
const FIRST_PORT: usize = 3;

impl PortLists {
    // The block whose rows the code lines select, up to the end of the sheet.
    fn block(&self, text: &[u8], adders: usize, width: usize) -> Result<Block, Refusal>
        requires few { adders ≤ 8 }
        requires some_bits { 1 ≤ width }
        requires few_bits { width ≤ 32 }
        ensures { Gives said result (read_block (lists_of self.now) adders width text.now) }
    {
        let mut block = Block::bare(adders, width)?;
        let mut rest = text;
        let mut line = FIRST_PORT + 2 * adders + 1;
        for code in 0..16 {
            if let Some(after) = skip(rest, &keys::of_code(code)) {
                let (row, after) = self.code_line(after, adders, line)?;
                block = block.with_row(code, row)?;
                rest = after;
                line += 1;
            }
        }
        if !rest.is_empty() {
            return Err(Refusal::SheetForm(line));
        }
        Ok(block)
    }

    // The first port that has an input which no row selects is told.
    fn all_selected(&self, block: &Block) -> Result<(), Refusal>
        ensures { Gives (λ u. u) result (check_ports (rows_of block.now) (lists_of self.now) 3 (ports block.now.adders)) }
    {
        let adders = block.adders();
        for place in 0..2 * adders + 1 {
            let port = Port::nth(place, adders);
            let selected = port.inputs(block);
            if !all_among(self.at(port).as_slice(), selected.as_slice()) {
                return Err(Refusal::InputUnselected(FIRST_PORT + place));
            }
        }
        Ok(())
    }
}

// The block that a sheet writes, or the first cause to turn the sheet down.
#[tactic(auto, unfolding(crate::specs::Reader::read_sheet))]
pub fn read_block(sheet: &[u8]) -> Result<Block, Refusal>
    ensures { Gives said result (read_sheet sheet.now) }
{
    if sheet.len() > MOST_BYTES {
        return Err(Refusal::SheetTooLong);
    }
    let (adders, rest) = number_within(sheet, keys::ADDERS, 0, 8, 1)?;
    let (width, rest) = number_within(rest, keys::WIDTH, 1, 32, 2)?;
    let mut lists = PortLists::new();
    let rest = lists.read(rest, adders as usize)?;
    let block = lists.block(rest, adders as usize, width as usize)?;
    lists.all_selected(&block)?;
    Ok(block)
}

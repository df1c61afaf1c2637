// Building a block row by row.
ghost use Rattle.std.specs.Prelude.{◌≡◌, Some};
ghost use Rattle.adders.specs.Rules.{Answered};
ghost use Rattle.blocks.specs.Blocks.{Rewritten};
ghost use Rattle.blocks.specs.Filling.{Bare, size_rules, filling_rules, uses_none_past};

use super::{Block, MOST_BITS};
use adders::Refusal;
use rows::Row;
use tables::Table;

const MOST_ADDERS: usize = 8;

impl Block {
    // A block of so many adders, for samples of so many bits, without a live code.
    pub fn bare(adders: usize, width: usize) -> Result<Block, Refusal>
        ensures { Answered (size_rules adders width) (λ b. Bare adders width b) result }
    {
        if adders > MOST_ADDERS {
            return Err(Refusal::TooManyAdders);
        }
        if !(1..=MOST_BITS).contains(&width) {
            return Err(Refusal::WidthOutOfRange);
        }
        Ok(Block {
            adders: adders as u8,
            width: width as u8,
            table: Table::new(),
        })
    }

    // Whether a row uses the block's adders alone.
    fn has_adders_of(&self, row: &Row) -> bool
        ensures { result ≡ uses_none_past self.now.adders row.now }
    {
        let slots = row.slots();
        for slot in &slots[self.adders as usize..] {
            if slot.is_some() {
                return false;
            }
        }
        true
    }

    // The block with a row at an idle code; the block itself stays.
    pub fn with_row(self, code: usize, row: Row) -> Result<Block, Refusal>
        ensures { Answered (filling_rules self code row) (λ after. Rewritten self code (Some row) after) result }
    {
        if code > 15 {
            return Err(Refusal::CodeAboveFifteen);
        }
        if self.row(code).is_ok() {
            return Err(Refusal::CodeLive);
        }
        if !self.has_adders_of(&row) {
            return Err(Refusal::BlockTooSmall);
        }
        let mut table = self.table;
        table.put(code, row)?;
        Ok(Block {
            adders: self.adders,
            width: self.width,
            table,
        })
    }
}

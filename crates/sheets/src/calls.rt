// Writing a block's sheet, and reading one over a block.
ghost use Rattle.std.specs.Prelude.{◌≡◌, ◌≤◌, length, take, is_ok, Decides, IfOk, Ok};
ghost use Rattle.blocks.specs.declared.model.Block.{Block};
ghost use Rattle.sheetlaws.specs.Sheets.{IsSheet};
ghost use Rattle.sheets.specs.Calls.{written_sheet, ReadOver, ReadsBack};
ghost use Rattle.writing.specs.Writes.{Written};

use crate::writer::sheet_of;
use adders::Refusal;
use blocks::Block;
use reading::read_block;

// Writes the sheet of a block to the front of a buffer, and answers its length. A buffer of 4,096 bytes always holds it.
pub fn write(block: &Block, buffer: &mut [u8]) -> Result<usize, Refusal>
    ensures answer { Written (written_sheet block.now) buffer.old result buffer.new }
    ensures few { length (written_sheet block.now) ≤ 4096 }
    ensures sheet { IsSheet (written_sheet block.now) block.now }
    ensures again { IfOk result (λ n. ReadsBack (take n buffer.new) block.now) }
{
    sheet_of(block).copy_to(buffer)
}

// Reads a sheet over a block, whatever was there; a sheet that is turned down leaves it as it was.
pub fn read(block: &mut Block, sheet: &[u8]) -> Result<(), Refusal>
    ensures answer { ReadOver sheet.now block.old result block.new }
    ensures exactly { Decides (is_ok result) ((b : Block) × IsSheet sheet.now b) }
    ensures every { (b : Block) → IsSheet sheet.now b → (result ≡ Ok tt) × (block.new ≡ b) }
{
    *block = read_block(sheet)?;
    Ok(())
}

// The calls.
ghost use Rattle.std.specs.Prelude.{◌≡◌, Decides};
ghost use Rattle.blocks.specs.declared.model.Block.{Block};
ghost use Rattle.blocks.specs.Blocks.{Live};
ghost use Rattle.chains.specs.Chains.{Accepted};
ghost use Rattle.forms.specs.Answers.{Only};
ghost use Rattle.sheetlaws.specs.Sheets.{IsSheet};
ghost use Rattle.kundrevez.specs.Host.{told, positive, LineConstant, SheetConstant, Told};

use adders::Refusal;
use blocks::Block;
use chains::Chain;

// A constant as it stands, and a refusal by its number made negative: one integer is all that crosses to C.
fn told(answer: Result<u32, Refusal>) -> i64
    ensures { result ≡ told answer }
{
    match answer {
        Ok(constant) => i64::from(constant),
        Err(refusal) => -i64::from(refusal.number()),
    }
}

// The constant of a chain line, or the first cause to turn the line down.
fn line_constant(line: &[u8]) -> Result<u32, Refusal>
    ensures answer { LineConstant line.now result }
{
    Ok(Chain::read(line)?.constant())
}

// The constant that a sheet gives at a code, or the first cause to turn the sheet down, and after it the code.
fn sheet_constant(sheet: &[u8], code: usize) -> Result<u32, Refusal>
    ensures answer { SheetConstant sheet.now code result }
{
    let mut block = Block::new();
    sheets::read(&mut block, sheet)?;
    block.constant(code)
}

// The constant of a chain line, for a host in C.
#[unsafe(no_mangle)]
pub extern "C" fn kundrevez_chain_constant(line: &[u8]) -> i64
    ensures answer { Told (LineConstant line.now) result }
    ensures only { Only (Told (LineConstant line.now)) result }
    ensures exactly { Decides (positive result) (Accepted line.now) }
{
    told(line_constant(line))
}

// The constant that a sheet gives at a code, for a host in C.
#[unsafe(no_mangle)]
pub extern "C" fn kundrevez_sheet_constant(sheet: &[u8], code: usize) -> i64
    ensures answer { Told (SheetConstant sheet.now code) result }
    ensures only { Only (Told (SheetConstant sheet.now code)) result }
    ensures exactly { Decides (positive result) ((b : Block) × IsSheet sheet.now b × Live b code) }
{
    told(sheet_constant(sheet, code))
}

// Reads the generator's width.
ghost use Rattle.std.specs.Prelude.{codes};
ghost use Rattle.forms.specs.Answers.{Only};
ghost use Rattle.calls.specs.Widths.{WidthReading};

use adders::Refusal;
use forms::{Key, Keyed};
use integers::TwoDigits;

// The most bytes of a line.
const MOST_BYTES: usize = 200;

// The most bits that a sample has.
const MOST_BITS: u32 = 32;

// The key of the line of a width.
struct WidthKey;

impl Key for WidthKey {
    ghost key = { codes "width=" };

    fn key() -> &'static [u8] {
        b"width="
    }
}

type Width = Keyed<WidthKey, TwoDigits>;

// The width that a line says, or the first cause to turn the line down.
pub fn read_width(line: &[u8]) -> Result<usize, Refusal>
    ensures answer { WidthReading line.now result }
    ensures only { Only (WidthReading line.now) result }
{
    if line.len() > MOST_BYTES {
        return Err(Refusal::LineTooLong);
    }
    let width = forms::read::<Width>(line)?;
    if !(1..=MOST_BITS).contains(&width) {
        return Err(Refusal::WidthOutOfRange);
    }
    Ok(width as usize)
}

// Reads a line that is a whole number.
ghost use Rattle.forms.specs.Answers.{Only};
ghost use Rattle.integers.specs.Form.{Reading};

use crate::scan::Part;
use forms::FormError;

// The number that a line says, or the first byte after which no such line can follow, the length where it stops short.
pub fn read_integer(line: &[u8]) -> Result<i64, FormError>
    ensures answer { Reading line.now result }
    ensures only { Only (Reading line.now) result }
{
    forms::read::<Part>(line)
}

// Reads a line of unit prices.
ghost use Rattle.forms.specs.Answers.{Only};
ghost use Rattle.units.specs.Form.{key, Reading};

use forms::{FormError, Key, Keyed, Parted};
use integers::NineDigits;
use prices::UnitPrices;

// The key of a line of unit prices.
struct UnitsKey;

impl Key for UnitsKey {
    ghost key = { key };

    fn key() -> &'static [u8] {
        b"units="
    }
}

type Units = Keyed<
    UnitsKey,
    Parted<NineDigits, Parted<NineDigits, Parted<NineDigits, NineDigits>>>,
>;

// The unit prices that a line says, or the first byte after which no such line can follow, the length where it stops short.
pub fn read_units(line: &[u8]) -> Result<UnitPrices, FormError>
    ensures answer { Reading line.now result }
    ensures only { Only (Reading line.now) result }
{
    let (adds, (subtracts, (both, two_to_one))) = forms::read::<Units>(line)?;
    Ok(UnitPrices {
        adds,
        subtracts,
        both,
        two_to_one,
    })
}

// Making a per-bit list, and asking it.
ghost use Rattle.std.specs.Prelude.{◌≡◌, is_ok, Decides};
ghost use Rattle.adders.specs.Rules.{Answered};
ghost use Rattle.prices.specs.PerBit.{per_bit_adders, per_bit_muxes, per_bit_adders_lawful, per_bit_muxes_lawful, unit_rules, WithinBounds};

use super::{PerBitList, UnitPrices};
use crate::adder::{AdderKind, AdderPart};
use crate::list::PriceList;
use crate::multiplexer::Multiplexer;
use adders::Refusal;

const MOST_UNIT: u32 = 1000;

impl PerBitList {
    // The list of these unit prices, or the first cause against them.
    pub fn new(units: UnitPrices) -> Result<PerBitList, Refusal>
        ensures answer { Answered (unit_rules units) (λ list. list.units ≡ units) result }
        ensures exactly { Decides (is_ok result) (WithinBounds units) }
    {
        let dearest = units.adds.max(units.subtracts).max(units.both);
        if dearest.max(units.two_to_one) > MOST_UNIT {
            return Err(Refusal::UnitTooHigh);
        }
        if units.both < dearest {
            return Err(Refusal::BothTooCheap);
        }
        Ok(PerBitList { units })
    }

    pub fn units(&self) -> UnitPrices
        ensures { result ≡ self.now.units }
    {
        self.units
    }
}

impl PriceList for PerBitList {
    ghost adders = { per_bit_adders };

    ghost muxes = { per_bit_muxes };

    ghost adders_lawful = { per_bit_adders_lawful };

    ghost muxes_lawful = { per_bit_muxes_lawful };

    fn adder(&self, part: AdderPart) -> u32 {
        let unit = match part.kind() {
            AdderKind::Adds => self.units.adds,
            AdderKind::Subtracts => self.units.subtracts,
            AdderKind::Both => self.units.both,
        };
        unit * part.width()
    }

    fn multiplexer(&self, part: Multiplexer) -> u32 {
        let unit = self.units.two_to_one;
        unit * (part.inputs() as u32 - 1) * part.width()
    }
}

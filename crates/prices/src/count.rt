// The count list: a block costs as many two-way multiplexers as it needs.
ghost use Rattle.prices.specs.Count.{count_adders, count_muxes, count_adders_lawful, count_muxes_lawful};

use crate::adder::AdderPart;
use crate::list::PriceList;
use crate::multiplexer::Multiplexer;

// Adders cost nothing, and a multiplexer one less than it has inputs.
#[derive(Clone, Copy, Debug, PartialEq, Eq)]
pub struct CountList;

impl PriceList for CountList {
    ghost adders = { λ _. count_adders };

    ghost muxes = { λ _. count_muxes };

    ghost adders_lawful = { λ _. count_adders_lawful };

    ghost muxes_lawful = { λ _. count_muxes_lawful };

    fn adder(&self, _part: AdderPart) -> u32 {
        0
    }

    fn multiplexer(&self, part: Multiplexer) -> u32 {
        part.inputs() as u32 - 1
    }
}

// A list of one of two kinds.
ghost use Rattle.prices.specs.Tables.{LawfulAdders, LawfulMuxes};
ghost use Rattle.prices.specs.Either.{either_table, either_lawful};

use crate::adder::AdderPart;
use crate::list::PriceList;
use crate::multiplexer::Multiplexer;

// One of two lists of different types, so that one place may be handed either.
#[derive(Clone, Copy)]
pub enum EitherList<P, Q> {
    First(P),
    Second(Q),
}

impl<P: PriceList, Q: PriceList> PriceList for EitherList<P, Q> {
    ghost adders = { either_table P.PriceList.adders Q.PriceList.adders };

    ghost muxes = { either_table P.PriceList.muxes Q.PriceList.muxes };

    ghost adders_lawful = { either_lawful P.PriceList.adders Q.PriceList.adders LawfulAdders P.PriceList.adders_lawful Q.PriceList.adders_lawful };

    ghost muxes_lawful = { either_lawful P.PriceList.muxes Q.PriceList.muxes LawfulMuxes P.PriceList.muxes_lawful Q.PriceList.muxes_lawful };

    fn adder(&self, part: AdderPart) -> u32 {
        match self {
            EitherList::First(list) => list.adder(part),
            EitherList::Second(list) => list.adder(part),
        }
    }

    fn multiplexer(&self, part: Multiplexer) -> u32 {
        match self {
            EitherList::First(list) => list.multiplexer(part),
            EitherList::Second(list) => list.multiplexer(part),
        }
    }
}

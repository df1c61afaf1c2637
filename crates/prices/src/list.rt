// What every price list has, and owes.
ghost use Rattle.std.specs.Prelude.{◌≡◌, ℕ};
ghost use Rattle.prices.specs.Tables.{AdderTable, MuxTable, LawfulAdders, LawfulMuxes};

use crate::adder::AdderPart;
use crate::multiplexer::Multiplexer;

// A list of prices. It means two tables, and whatever is asked is answered from them.
pub trait PriceList {
    // What an adder of a kind costs at a width.
    ghost adders: { Self → AdderTable };

    // What a multiplexer of so many inputs costs at a width.
    ghost muxes: { Self → MuxTable };

    fn adder(&self, part: AdderPart) -> u32
        ensures { result ≡ adders self.now part.kind part.width };

    fn multiplexer(&self, part: Multiplexer) -> u32
        ensures { result ≡ muxes self.now part.inputs part.width };

    ghost adders_lawful: { (list : Self) → LawfulAdders (adders list) };

    ghost muxes_lawful: { (list : Self) → LawfulMuxes (muxes list) };
}

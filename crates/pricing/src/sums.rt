// What a block costs.
ghost use Rattle.std.specs.Prelude.{◌≡◌, ◌≤◌};
ghost use Rattle.prices.specs.Tables.{tables};
ghost use Rattle.pricing.specs.Prices.{port_price, adder_price, adder_with_ports, block_price};

use crate::parts::{adder_at, multiplexer_at};
use blocks::Block;
use ports::Port;
use prices::PriceList;

// What the multiplexer of a port costs.
#[tactic(auto, unfolding(crate::specs::Prices::port_price))]
fn port_price<L: PriceList>(block: &Block, port: Port, list: &L) -> u32
    ensures price { result ≡ port_price (L.PriceList.muxes list.now) block.now port }
    ensures most { result ≤ 1000000 }
{
    multiplexer_at(block, port).map_or(0, |part| list.multiplexer(part))
}

// What the adder of a number costs.
#[tactic(auto, unfolding(crate::specs::Prices::adder_price))]
fn adder_price<L: PriceList>(block: &Block, adder: usize, list: &L) -> u32
    ensures price { result ≡ adder_price (L.PriceList.adders list.now) block.now adder }
    ensures most { result ≤ 1000000 }
{
    adder_at(block, adder).map_or(0, |part| list.adder(part))
}

// What the adder of a number costs with its two ports.
fn adder_with_ports<L: PriceList>(block: &Block, adder: usize, list: &L) -> u32
    ensures price { result ≡ adder_with_ports (tables (L.PriceList.adders list.now) (L.PriceList.muxes list.now)) block.now adder }
    ensures most { result ≤ 3000000 }
{
    adder_price(block, adder, list)
        + port_price(block, Port::Left(adder), list)
        + port_price(block, Port::Right(adder), list)
}

// The price of a block: its adders that some live row uses, and its ports that have inputs.
pub fn price<L: PriceList>(block: &Block, list: &L) -> u32
    ensures price { result ≡ block_price (tables (L.PriceList.adders list.now) (L.PriceList.muxes list.now)) block.now }
    ensures most { result ≤ 25000000 }
{
    let mut sum = 0;
    for place in 0..block.adders() {
        sum += adder_with_ports(block, place + 1, list);
    }
    sum + port_price(block, Port::Output, list)
}

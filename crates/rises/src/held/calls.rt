// What one row more would cost at a part.
ghost use Rattle.std.specs.Prelude.{◌≡◌, ◌≤◌};
ghost use Rattle.prices.specs.Tables.{tables};
ghost use Rattle.rises.specs.Rises.{port_of, adder_of, mux_with, kind_with, port_alone, port_with, ports_with, way_of};

use super::{HeldAdder, HeldPort, Way};
use crate::uses::{ValuedAdder, ValuedOperand};
use adders::Sign;
use bits::bits;
use blocks::Block;
use ports::Port;
use prices::{AdderPart, Multiplexer, PriceList};
use pricing::{Net, SignsMet};

// What a multiplexer of so many inputs costs at a width, nothing where there is none.
#[tactic(auto, unfolding(crate::specs::Rises::mux_with))]
fn multiplexer_price<L: PriceList>(inputs: usize, width: u32, list: &L) -> u32
    ensures price { result ≡ mux_with (L.PriceList.muxes list.now) inputs width }
    ensures most { result ≤ 1000000 }
{
    Multiplexer::new(inputs, width).map_or(0, |part| list.multiplexer(part))
}

// What an adder that these signs are met at costs at a width.
#[tactic(auto, unfolding(crate::specs::Rises::kind_with))]
fn kind_price<L: PriceList>(signs: SignsMet, width: u32, list: &L) -> u32
    ensures price { result ≡ kind_with (L.PriceList.adders list.now) signs width }
    ensures most { result ≤ 1000000 }
{
    signs
        .kind()
        .and_then(|kind| AdderPart::new(kind, width))
        .map_or(0, |part| list.adder(part))
}

impl HeldPort {
    pub fn of(block: &Block, port: Port) -> HeldPort
        ensures { result ≡ port_of block.now port }
    {
        HeldPort {
            inputs: port.inputs(block),
            bits: bits(Net::OfPort(port).largest(block)) as u8,
        }
    }

    // What the multiplexer costs, where a sample has so many bits.
    fn price<L: PriceList>(&self, sample: u8, list: &L) -> u32
        ensures price { result ≡ port_alone (L.PriceList.muxes list.now) sample self.now }
        ensures most { result ≤ 1000000 }
    {
        let width = u32::from(sample) + u32::from(self.bits);
        multiplexer_price(self.inputs.len(), width, list)
    }

    // What it would cost with one operand more.
    pub fn price_with<L: PriceList>(&self, sample: u8, used: ValuedOperand, list: &L) -> u32
        ensures price { result ≡ port_with (L.PriceList.muxes list.now) sample self.now used }
        ensures most { result ≤ 1000000 }
    {
        let inputs = self.inputs.len_with(used.operand);
        let width = u32::from(sample) + u32::from(used.bits.max(self.bits));
        multiplexer_price(inputs, width, list)
    }
}

impl HeldAdder {
    // What it costs with its ports is reckoned from the same.
    pub fn of<L: PriceList>(block: &Block, adder: usize, list: &L) -> HeldAdder
        ensures { result ≡ adder_of (tables (L.PriceList.adders list.now) (L.PriceList.muxes list.now)) block.now adder }
    {
        let sample = block.width() as u8;
        let left = HeldPort::of(block, Port::Left(adder));
        let right = HeldPort::of(block, Port::Right(adder));
        let signs = SignsMet::at(block, adder);
        let bits = bits(Net::OfAdder(adder).largest(block)) as u8;
        let width = u32::from(sample) + u32::from(bits);
        let price = kind_price(signs, width, list)
            + left.price(sample, list)
            + right.price(sample, list);
        HeldAdder {
            left,
            right,
            signs,
            bits,
            price,
        }
    }

    // What its two ports would cost with these operands more.
    #[tactic(auto, unfolding(crate::specs::Rises::ports_with))]
    fn ports_with<L: PriceList>(
        &self,
        sample: u8,
        left: ValuedOperand,
        right: ValuedOperand,
        list: &L,
    ) -> u32
        ensures price { result ≡ ports_with (L.PriceList.muxes list.now) sample self.now left right }
        ensures most { result ≤ 2000000 }
    {
        self.left.price_with(sample, left, list) + self.right.price_with(sample, right, list)
    }

    // The cheaper way round for one row more. A minus adder is never turned, nor is one that costs the same.
    pub fn way<L: PriceList>(&self, sample: u8, used: ValuedAdder, list: &L) -> Way
        ensures way { result ≡ way_of (tables (L.PriceList.adders list.now) (L.PriceList.muxes list.now)) sample self.now used }
        ensures most { result.rise ≤ 3000000 }
    {
        let kept = self.ports_with(sample, used.left, used.right, list);
        let turned = match used.sign {
            Sign::Plus => self.ports_with(sample, used.right, used.left, list),
            Sign::Minus => kept,
        };
        let swapped = turned < kept;
        let ports = if swapped { turned } else { kept };
        let width = u32::from(sample) + u32::from(used.bits.max(self.bits));
        let price = kind_price(self.signs.with(used.sign), width, list) + ports;
        Way {
            swapped,
            rise: price.saturating_sub(self.price),
        }
    }
}

// The task of a block and a chain.
ghost use Rattle.std.specs.Prelude.{◌≡◌};
ghost use Rattle.prices.specs.Tables.{tables};
ghost use Rattle.fusing.specs.Tasks.{UsesOf, HeldOf, TaskOf};

use super::Task;
use blocks::Block;
use chains::Chain;
use ports::Port;
use prices::PriceList;
use rises::{HeldAdder, HeldPort, ValuedAdder, ValuedOperand};
use rows::Row;

// How a row uses each of its adders.
fn uses_of(row: &Row) -> [Option<ValuedAdder>; 8]
    ensures { UsesOf row.now result }
{
    let mut uses = [None; 8];
    for place in 0..8 {
        uses[place] = ValuedAdder::of(row, place + 1);
    }
    uses
}

// What the live rows have at each adder.
fn held_of<L: PriceList>(block: &Block, list: &L) -> [HeldAdder; 8]
    ensures { HeldOf (tables (L.PriceList.adders list.now) (L.PriceList.muxes list.now)) block.now result }
{
    let mut held = [HeldAdder::of(block, 1, list); 8];
    for place in 1..8 {
        held[place] = HeldAdder::of(block, place + 1, list);
    }
    held
}

impl<'a, L: PriceList> Task<'a, L> {
    pub fn new(block: &Block, chain: &Chain, list: &'a L) -> Task<'a, L>
        ensures list { result.list.now ≡ list.now }
        ensures task { TaskOf (tables (L.PriceList.adders list.now) (L.PriceList.muxes list.now)) block.now chain.now result }
    {
        let row = Row::from(*chain);
        let output = ValuedOperand::of(&row, Port::Output).unwrap();
        Task {
            list,
            sample: block.width() as u8,
            count: block.adders() as u8,
            length: chain.adders().len(),
            uses: uses_of(&row),
            output,
            held: held_of(block, list),
            held_output: HeldPort::of(block, Port::Output),
        }
    }
}

// The row of a chain at a placement.
ghost use Rattle.std.specs.Prelude.{◌≡◌};
ghost use Rattle.chains.specs.Chains.{chain_adders};
ghost use Rattle.rows.specs.Rows.{RowJudged};
ghost use Rattle.blocks.specs.declared.model.Block.{Block};
ghost use Rattle.placing.specs.Placements.{place, swap, placed_source, placed_operand, placed_adder, Admissible};
ghost use Rattle.placing.specs.Slots.{at_places, first_at, placed_slots, placed_output, IsPlaced};

use adders::{Adder, Operand, Refusal};
use chains::Chain;
use rows::Row;

// The numbers of the adders that a row has slots for.
const NUMBERS: [usize; 8] = [1, 2, 3, 4, 5, 6, 7, 8];

// Where each adder of a chain stands, and whether its operands are swapped.
#[derive(Clone, Copy)]
struct Placement<'a> {
    places: &'a [u8],
    swaps: &'a [bool],
}

impl Placement<'_> {
    // The block's source for a source of the chain; an adder that stands nowhere gives way to the sample.
    fn source(self, source: u8) -> u8
        ensures { result ≡ placed_source (at_places self.entry.places.now self.entry.swaps.now) source }
    {
        match source {
            0 => 0,
            number => self.place(usize::from(number) - 1),
        }
    }

    // Where the chain's adder of this index stands; 0, where none is, if that is not told.
    fn place(self, index: usize) -> u8
        ensures { result ≡ place (at_places self.entry.places.now self.entry.swaps.now) index }
    {
        self.places.get(index).copied().unwrap_or(0)
    }

    fn operand(self, operand: Operand) -> Operand
        ensures { result ≡ placed_operand (at_places self.entry.places.now self.entry.swaps.now) operand }
    {
        Operand {
            source: self.source(operand.source),
            shift: operand.shift,
        }
    }

    // The chain's adder of this index, as it stands in the block.
    fn adder(self, index: usize, adder: Adder) -> Adder
        ensures { result ≡ placed_adder (at_places self.entry.places.now self.entry.swaps.now) (swap (at_places self.entry.places.now self.entry.swaps.now) index) adder }
    {
        let swapped = self.swaps.get(index).copied().unwrap_or(false);
        let (left, right) = if swapped {
            (adder.right, adder.left)
        } else {
            (adder.left, adder.right)
        };
        Adder {
            left: self.operand(left),
            sign: adder.sign,
            right: self.operand(right),
        }
    }

    // The first of the adders that stands at this number.
    #[tactic(auto, using(crate::proofs::Made::first_passed))]
    fn adder_at(self, number: usize, adders: &[Adder]) -> Option<Adder>
        ensures { result ≡ first_at (at_places self.entry.places.now self.entry.swaps.now) number 0 adders.now }
    {
        for (index, adder) in adders.iter().enumerate() {
            if usize::from(self.place(index)) == number {
                return Some(self.adder(index, *adder));
            }
        }
        None
    }

    // What stands in each slot.
    fn slots(self, adders: &[Adder]) -> [Option<Adder>; 8]
        ensures { result ≡ placed_slots (at_places self.entry.places.now self.entry.swaps.now) adders.now }
    {
        NUMBERS.map(|number| self.adder_at(number, adders))
    }

    // The output operand: it reads where the chain's adder of the highest number stands, or the sample of a chain without adders.
    fn output(self, chain: &Chain) -> Operand
        ensures { result ≡ placed_output (at_places self.entry.places.now self.entry.swaps.now) chain.now }
    {
        Operand {
            source: self.source(chain.adders().len() as u8),
            shift: chain.shift(),
        }
    }
}

// The row of the chain with its adders at these places, some with their operands swapped; or the first rule of a row that this breaks, as no admissible placement does.
pub fn placed_row(chain: &Chain, places: &[u8], swaps: &[bool]) -> Result<Row, Refusal>
    ensures answer { RowJudged (placed_slots (at_places places.now swaps.now) (chain_adders chain.now)) (placed_output (at_places places.now swaps.now) chain.now) result }
    ensures placed { let p = at_places places.now swaps.now in
        (before : Block) → Admissible before chain.now p → IsPlaced chain.now p result }
{
    let placement = Placement { places, swaps };
    Row::new(placement.slots(chain.adders()), placement.output(chain))
}

// A chain is placed adder by adder.
ghost use Rattle.std.specs.Prelude.{◌≡◌, ◌≤◌, ◌-◌, length, Some, None, slice_get, slice_index_or, not, ◌==◌};
ghost use Rattle.std.specs.List.{list_any};
ghost use Rattle.prices.specs.Tables.{tables};
ghost use Rattle.rises.specs.Rises.{port_with};
ghost use Rattle.placing.specs.Placements.{placed_source};
ghost use Rattle.fusing.specs.Tasks.{at, moved, moved_adder, stands_above, opens_at, way_at, rise_of, swap_of, SwapsOf};

use super::Task;
use adders::Operand;
use prices::PriceList;
use rises::{ValuedAdder, ValuedOperand, Way};
use search::{ChoiceList, Steps};

// Where a source of the chain stands; the sample is below all adders.
fn place_of(before: &[u8], source: u8) -> u8
    ensures { result ≡ placed_source (at before.now) source }
{
    match source.checked_sub(1) {
        None => 0,
        Some(place) => before.get(place as usize).copied().unwrap_or(0),
    }
}

// An operand where its source stands.
fn moved(before: &[u8], used: ValuedOperand) -> ValuedOperand
    ensures { result ≡ moved before.now used }
{
    ValuedOperand {
        operand: Operand {
            source: place_of(before, used.operand.source),
            shift: used.operand.shift,
        },
        bits: used.bits,
    }
}

fn moved_adder(before: &[u8], used: ValuedAdder) -> ValuedAdder
    ensures { result ≡ moved_adder before.now used }
{
    ValuedAdder {
        left: moved(before, used.left),
        sign: used.sign,
        right: moved(before, used.right),
        bits: used.bits,
    }
}

// Whether what feeds an adder stands below a place.
fn stands_above(before: &[u8], used: Option<ValuedAdder>, place: u8) -> bool
    ensures { result ≡ stands_above before.now used place }
{
    let Some(adder) = used else {
        return true;
    };
    place_of(before, adder.left.operand.source) < place
        && place_of(before, adder.right.operand.source) < place
}

impl<L: PriceList> Task<'_, L> {
    // How the chain uses the next adder.
    fn next_use(&self, before: &[u8]) -> Option<ValuedAdder>
        ensures { result ≡ slice_index_or self.now.uses (length before.now) None }
    {
        self.uses.get(before.len()).copied().flatten()
    }

    // The cheaper way round for the next adder at a place.
    pub fn way(&self, before: &[u8], place: u8) -> Option<Way>
        ensures way { result ≡ way_at (tables (L.PriceList.adders self.now.list.now) (L.PriceList.muxes self.now.list.now)) self.now.sample before.now (slice_get self.now.held (place - 1)) (slice_index_or self.now.uses (length before.now) None) }
        ensures most { rise_of result ≤ 3000000 }
    {
        let held = self.held.get((place as usize).saturating_sub(1))?;
        let used = self.next_use(before)?;
        Some(held.way(self.sample, moved_adder(before, used), self.list))
    }

    // Whether each adder is better turned, with all at their places.
    pub fn swaps(&self, places: ChoiceList) -> [bool; 8]
        ensures { SwapsOf (tables (L.PriceList.adders self.now.list.now) (L.PriceList.muxes self.now.list.now)) self.now places result }
    {
        let places = places.as_slice();
        let mut swaps = [false; 8];
        for index in 0..places.len() {
            let way = self.way(&places[..index], places[index]);
            swaps[index] = way.is_some_and(|way| way.swapped);
        }
        swaps
    }
}

impl<L: PriceList> Steps for Task<'_, L> {
    ghost length = { λ task. task.length };

    ghost count = { λ task. task.count };

    ghost opens = { λ task before p. opens_at (λ d. slice_index_or task.uses d None) before p };

    ghost rise = { λ task before p. rise_of (way_at (tables (L.PriceList.adders task.list.now) (L.PriceList.muxes task.list.now)) task.sample before (slice_get task.held (p - 1)) (slice_index_or task.uses (length before) None)) };

    ghost last = { λ task all. port_with (L.PriceList.muxes task.list.now) task.sample task.held_output (moved all task.output) };

    ghost few = { λ task. task.few };

    fn length(&self) -> usize {
        self.length
    }

    fn count(&self) -> u8 {
        self.count
    }

    fn opens(&self, before: ChoiceList, choice: u8) -> bool {
        let places = before.as_slice();
        stands_above(places, self.next_use(places), choice) && !places.contains(&choice)
    }

    fn rise(&self, before: ChoiceList, choice: u8) -> u32 {
        self.way(before.as_slice(), choice)
            .map_or(0, |way| way.rise)
    }

    fn last(&self, all: ChoiceList) -> u32 {
        self.held_output
            .price_with(self.sample, moved(all.as_slice(), self.output), self.list)
    }
}

// The rules of a row, tested in their order.
ghost use Rattle.std.specs.Prelude.{◌≡◌, ℕ, ◌<◌, ◌++◌, false, None, Some, length, is_some, slice_index_or, IfOk, IfErr};
ghost use Rattle.adders.specs.Rules.{first_broken, Tried};
ghost use Rattle.rows.specs.Reading.{is_read};
ghost use Rattle.rows.specs.Rules.{row_constant, row_rules, use_rules, slot_wiring, wiring_from, output_wiring};

use adders::{Adder, Operand, Refusal, output_value, slot_values};

// The sample and eight adders.
const SOURCES: usize = 9;

// The first rule of sources and shifts that an adder breaks, where there is one.
fn slot_wired(slot: Option<Adder>, number: usize) -> Result<(), Refusal>
    ensures { Tried (slot_wiring number slot) tt result }
{
    slot.map_or(Ok(()), |adder| adder.wired_at(number))
}

// The first rule of sources and shifts that any adder breaks.
fn slots_wired(slots: [Option<Adder>; 8]) -> Result<(), Refusal>
    ensures { Tried (wiring_from 1 slots) tt result }
{
    for (i, slot) in slots.iter().enumerate() {
        slot_wired(*slot, i + 1)?;
    }
    Ok(())
}

// The slots of a row, where each adder reads lower sources and shifts by at most 30, and an output that reads one of the nine sources.
#[derive(Clone, Copy)]
struct Wiring {
    slots: [Option<Adder>; 8],
    output: Operand,
    ghost room: { length slots ≡ 8 },
    ghost lower: { is_some (first_broken (wiring_from 1 slots)) ≡ false },
    ghost there: { output.source < 9 },
}

impl Wiring {
    // The first rule of sources and shifts that an adder breaks, or the output.
    fn new(slots: [Option<Adder>; 8], output: Operand) -> Result<Wiring, Refusal>
        ensures kept { IfOk result (λ w. (w.slots ≡ slots) × (w.output ≡ output) × (first_broken (wiring_from 1 slots) ≡ None) × (first_broken (output_wiring slots output) ≡ None)) }
        ensures broken { IfErr result (λ e. first_broken (wiring_from 1 slots ++ output_wiring slots output) ≡ Some e) }
    {
        slots_wired(slots)?;
        output.wired_below(SOURCES, 0)?;
        Ok(Wiring { slots, output })
    }

    // Which sources the output reads, directly or through adders.
    fn sources_read(&self) -> [bool; 9]
        ensures { (j : ℕ) → j < 9 → slice_index_or result j false ≡ is_read 1 self.now.slots self.now.output.source j }
    {
        let mut read = [false; 9];
        read[self.output.source as usize] = true;
        for place in (0..8).rev() {
            if read[place + 1] {
                if let Some(adder) = self.slots[place] {
                    read[adder.left.source as usize] = true;
                    read[adder.right.source as usize] = true;
                }
            }
        }
        read
    }

    // Each adder is used exactly if the output reads it; the lowest that is not so is told.
    fn used_as_read(&self) -> Result<(), Refusal>
        ensures { Tried (use_rules self.now.slots self.now.output.source 1 self.now.slots) tt result }
    {
        let read = self.sources_read();
        for (i, slot) in self.slots.iter().enumerate() {
            if slot.is_some() != read[i + 1] {
                return Err(Refusal::AdderNotAsRead(i + 1));
            }
        }
        Ok(())
    }
}

// The constant of a row of these slots and this output, or the first rule that it breaks.
pub(crate) fn constant_of(slots: [Option<Adder>; 8], output: Operand) -> Result<u32, Refusal>
    ensures { Tried (row_rules slots output) (row_constant slots output) result }
{
    let wiring = Wiring::new(slots, output)?;
    wiring.used_as_read()?;
    let values = slot_values(slots)?;
    output_value(values[output.source as usize], output.shift)
}

// A move, and what it makes of operands, adders and slots.
ghost use Rattle.std.specs.Prelude.{◌≡◌, ◌≤ℤ◌, [], ◌∷◌, pos, negsuc};
ghost use Rattle.adders.specs.Rules.{Answered, Tried};
ghost use Rattle.moves.specs.Moves.{amount_rules, rise, new_shift, operand_shift_rules, adder_shift_rules, slot_shift_rules, shift_rules_from, moved_operand, moved_adder, moved_slot, moved_from};

use adders::{Adder, Operand, Refusal};

const MOST_AMOUNT: i64 = 30;

const MOST_SHIFT: i64 = 30;

// The adder whose shifts rise, and by how much: below 0 they fall.
#[derive(Clone, Copy)]
pub struct ShiftMove {
    adder: usize,
    amount: i64,
    ghost least: { negsuc 29 ≤ℤ amount },
    ghost most: { amount ≤ℤ pos 30 },
}

impl ShiftMove {
    // The move of an adder by an amount from -30 to 30.
    pub fn new(adder: usize, amount: i64) -> Result<ShiftMove, Refusal>
        ensures { Answered (amount_rules amount) (λ m. (m.adder ≡ adder) × (m.amount ≡ amount)) result }
    {
        if !(-MOST_AMOUNT..=MOST_AMOUNT).contains(&amount) {
            return Err(Refusal::AmountOutOfRange);
        }
        Ok(ShiftMove { adder, amount })
    }

    // The adder whose own shifts rise.
    pub fn adder(self) -> usize
        ensures { result ≡ self.adder }
    {
        self.adder
    }

    // By how many bits the value of a source rises.
    fn rise(self, source: usize) -> i64
        ensures value { result ≡ rise self.adder self.amount source }
        ensures least { negsuc 29 ≤ℤ result }
        ensures most { result ≤ℤ pos 30 }
    {
        if source == self.adder { self.amount } else { 0 }
    }

    // The shift that an operand would have afterwards, in its range or not.
    fn new_shift(self, operand: Operand, reader: usize) -> i64
        ensures { result ≡ new_shift self.adder self.amount reader operand }
    {
        i64::from(operand.shift) + self.rise(reader) - self.rise(operand.source as usize)
    }

    // The operand that a reader has afterwards, or the refusal of its shift; the output is the reader 0.
    pub fn moved_operand(self, operand: Operand, reader: usize) -> Result<Operand, Refusal>
        ensures { Tried (operand_shift_rules self.adder self.amount reader operand) (moved_operand self.adder self.amount reader operand) result }
    {
        let shift = self.new_shift(operand, reader);
        if !(0..=MOST_SHIFT).contains(&shift) {
            return Err(Refusal::ShiftOutOfRange(reader));
        }
        Ok(Operand {
            source: operand.source,
            shift: shift as u8,
        })
    }

    // The adder with this number afterwards, or the refusal of its first shift that leaves its range.
    pub fn moved_adder(self, adder: Adder, number: usize) -> Result<Adder, Refusal>
        ensures { Tried (adder_shift_rules self.adder self.amount number adder) (moved_adder self.adder self.amount number adder) result }
    {
        Ok(Adder {
            left: self.moved_operand(adder.left, number)?,
            sign: adder.sign,
            right: self.moved_operand(adder.right, number)?,
        })
    }

    // The same of an adder that may be absent.
    fn moved_slot(self, slot: Option<Adder>, number: usize) -> Result<Option<Adder>, Refusal>
        ensures { Tried (slot_shift_rules self.adder self.amount number slot) (moved_slot self.adder self.amount number slot) result }
    {
        let Some(adder) = slot else {
            return Ok(None);
        };
        Ok(Some(self.moved_adder(adder, number)?))
    }

    // All adders of a row afterwards, or the refusal of the first shift that leaves its range.
    pub fn moved_slots(self, slots: [Option<Adder>; 8]) -> Result<[Option<Adder>; 8], Refusal>
        ensures { Tried (shift_rules_from self.adder self.amount 1 slots) (moved_from self.adder self.amount 1 slots) result }
    {
        let mut moved = slots;
        for (i, slot) in slots.iter().enumerate() {
            moved[i] = self.moved_slot(*slot, i + 1)?;
        }
        Ok(moved)
    }
}

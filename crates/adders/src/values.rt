// The values of operands and adders for a sample of 1, with the rules that they keep.
ghost use Rattle.std.specs.Prelude.{◌≡◌, ◌*◌, ◌^◌, ◌<◌, ◌≤◌, [], ◌∷◌, IfOk};
ghost use Rattle.adders.specs.Values.{operand_value, adder_value, slot_value, values_from, sample, reads, ValuesFollow};
ghost use Rattle.adders.specs.declared.refusals.Refusal.TheVariants.{ValueOutOfRange};
ghost use Rattle.adders.specs.Rules.{Tried, rule, in_range, shift_rule, operand_rules, reading_rules, wiring_rules, adder_rules, slot_rules, rules_from, output_rules, RulesSay};

use crate::refusals::Refusal;
use crate::wiring::{Adder, Operand, Sign};

const MOST_SHIFT: u8 = 30;

const MOST_VALUE: u64 = 2_147_483_647;

// Whether a value is positive and fits 31 bits.
fn in_range(value: u64) -> bool
    ensures { result ≡ in_range value }
{
    (1..=MOST_VALUE).contains(&value)
}

// A value that is in range, or its refusal at `place`.
fn ranged(value: u64, place: usize) -> Result<u32, Refusal>
    ensures { Tried (rule (in_range value) (ValueOutOfRange place) ∷ []) value result }
{
    if in_range(value) {
        Ok(value as u32)
    } else {
        Err(Refusal::ValueOutOfRange(place))
    }
}

// The rule of a shift, whose breach is told at `place`.
fn shift_within(shift: u8, place: usize) -> Result<(), Refusal>
    ensures { Tried (shift_rule shift place ∷ []) tt result }
{
    if shift > MOST_SHIFT {
        return Err(Refusal::ShiftOutOfRange(place));
    }
    Ok(())
}

// A value under a left shift.
fn scaled(value: u32, shift: u8) -> u64
    requires { shift ≤ 30 }
    ensures value { result ≡ value * 2 ^ shift }
    ensures small { result < 2 ^ 62 }
{
    u64::from(value) << shift
}

// The value of an output that reads `value`, or the first rule that it breaks.
pub fn output_value(value: u32, shift: u8) -> Result<u32, Refusal>
    ensures { Tried (output_rules value shift) (value * 2 ^ shift) result }
{
    shift_within(shift, 0)?;
    let output = scaled(value, shift);
    ranged(output, 0)
}

impl Operand {
    // The first rule that it breaks for a reader that takes the sources below `bound`; a breach is told at `place`.
    pub fn wired_below(self, bound: usize, place: usize) -> Result<(), Refusal>
        ensures { Tried (reading_rules bound place self) tt result }
    {
        if self.source as usize >= bound {
            return Err(Refusal::SourceNotLower(place));
        }
        shift_within(self.shift, place)
    }

    // The operand's value at the adder that reads it, or the first rule that it breaks; `values` has one for each source below that adder.
    fn value(self, values: &[u32]) -> Result<u64, Refusal>
        ensures tried { Tried (operand_rules values.now self) (operand_value values.now self) result }
        ensures small { IfOk result (λ v. v < 2 ^ 62) }
    {
        self.wired_below(values.len(), values.len())?;
        Ok(scaled(values[self.source as usize], self.shift))
    }
}

impl Adder {
    // The first rule of its sources and its shifts that it breaks as the adder with this number.
    pub fn wired_at(self, number: usize) -> Result<(), Refusal>
        ensures { Tried (wiring_rules number self) tt result }
    {
        self.left.wired_below(number, number)?;
        self.right.wired_below(number, number)
    }

    // The adder's value, or the first rule that it breaks; `values` has one for each source below it.
    pub fn value(self, values: &[u32]) -> Result<u32, Refusal>
        ensures { Tried (adder_rules values.now self) (adder_value values.now self) result }
    {
        let left = self.left.value(values)?;
        let right = self.right.value(values)?;
        let value = match self.sign {
            Sign::Plus => left + right,
            Sign::Minus => left.saturating_sub(right),
        };
        if !(in_range(left) && in_range(right)) {
            return Err(Refusal::ValueOutOfRange(values.len()));
        }
        ranged(value, values.len())
    }

    // Whether one of its operands has this source.
    pub fn reads(self, source: usize) -> bool
        ensures { result ≡ reads source self }
    {
        self.left.source as usize == source || self.right.source as usize == source
    }
}

// The value of an adder that may be absent, or the first rule that it breaks; `values` has one for each source below it.
fn slot_value(slot: Option<Adder>, values: &[u32]) -> Result<u32, Refusal>
    ensures { Tried (slot_rules values.now slot) (slot_value values.now slot) result }
{
    let Some(adder) = slot else {
        return Ok(0);
    };
    adder.value(values)
}

// The values of the sample and of eight adders, of which some may be absent, or the first rule that an adder breaks.
pub fn slot_values(slots: [Option<Adder>; 8]) -> Result<[u32; 9], Refusal>
    ensures { Tried (rules_from sample slots) (values_from sample slots) result }
{
    let mut at = [1u32; 9];
    for (i, slot) in slots.iter().enumerate() {
        at[i + 1] = slot_value(*slot, &at[..=i])?;
    }
    Ok(at)
}

// The values are what the shift-and-add rule gives.
#[tactic(auto, using(crate::proofs::Follow::follow))]
pub fn values_follow_their_adders()
    ensures { ValuesFollow }
{}

// The rules of the adders, tried in their order, say what each adder has to keep.
pub fn rules_say_what_adders_keep()
    ensures { RulesSay }
{}

// The calls on a row.
ghost use Rattle.std.specs.Prelude.{◌≡◌, IfSome, is_ok, Decides};
ghost use Rattle.adders.specs.Rules.{InRange};
ghost use Rattle.adders.specs.Values.{sample, values_from};
ghost use Rattle.forms.specs.Answers.{Only};
ghost use Rattle.chains.specs.Chains.{chain_constant};
ghost use Rattle.rows.specs.Rules.{KeepsRow};
ghost use Rattle.rows.specs.Rows.{adder_at, constant_of, row_value_at, ShiftAndAdd, RowJudged, RowOf};

use super::Row;
use crate::rules::constant_of;
use adders::{Adder, Operand, Refusal, slot_values};
use chains::Chain;

impl Row {
    // The row of these slots and this output, or the first rule that they break.
    pub fn new(slots: [Option<Adder>; 8], output: Operand) -> Result<Row, Refusal>
        ensures answer { RowJudged slots output result }
        ensures only { Only (RowJudged slots output) result }
        ensures exactly { Decides (is_ok result) (KeepsRow slots output) }
    {
        constant_of(slots, output)?;
        Ok(Row { slots, output })
    }

    // For each adder nothing or its operands and its sign, adder 1 first.
    pub fn slots(&self) -> [Option<Adder>; 8]
        ensures slots { result ≡ self.now.slots }
        ensures lawful { KeepsRow result self.now.output }
    {
        self.slots
    }

    // What the output reads.
    pub fn output(&self) -> Operand
        ensures { result ≡ self.now.output }
    {
        self.output
    }

    // An adder's operands and sign, `None` where the row does not use an adder of this number.
    pub fn adder(&self, number: usize) -> Option<Adder>
        ensures { result ≡ adder_at self.now number }
    {
        *self.slots.get(number.checked_sub(1)?)?
    }

    // What a sample of 1 becomes at the output.
    pub fn constant(&self) -> u32
        ensures value { result ≡ constant_of self.now }
        ensures range { InRange result }
    {
        constant_of(self.slots, self.output).unwrap()
    }

    // What a sample of 1 becomes at each source: 1 at the sample itself, 0 at an adder that the row does not use.
    pub fn values(&self) -> [u32; 9]
        ensures { result ≡ values_from sample self.now.slots }
    {
        slot_values(self.slots).unwrap()
    }

    // What a sample of 1 becomes at an adder, `None` where the row does not use an adder of this number.
    pub fn value(&self, adder: usize) -> Option<u32>
        ensures value { result ≡ row_value_at self.now adder }
        ensures rule { ShiftAndAdd self.now adder result }
        ensures range { IfSome result InRange }
    {
        let _used = self.adder(adder)?;
        let values = self.values();
        Some(values[adder])
    }
}

// The row that a chain is, whose constant is the chain's.
impl From<Chain> for Row {
    ghost from_gives = { λ c r. RowOf c r × (constant_of r ≡ chain_constant c) };

    fn from(chain: Chain) -> Row {
        Row {
            slots: chain.slots(),
            output: Operand {
                source: chain.adders().len() as u8,
                shift: chain.shift(),
            },
        }
    }
}

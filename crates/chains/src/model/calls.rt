// The calls on a chain.
ghost use Rattle.std.specs.Prelude.{◌≡◌, is_ok, IfOk, Decides};
ghost use Rattle.lines.specs.Form.{line_text};
ghost use Rattle.adders.specs.Rules.{InRange};
ghost use Rattle.chains.specs.Rules.{Keeps, eight_slots};
ghost use Rattle.chains.specs.Chains.{chain_adders, chain_constant, adder_value_at, ShiftAndAdd, Judged, Reading, Accepted};
ghost use Rattle.forms.specs.Answers.{Only};

use super::Chain;
use crate::rules::{constant_of, values_of};
use adders::{Adder, AdderList, Refusal};
use lines::Draft;

// The most bytes that a chain line has.
const MOST_BYTES: usize = 200;

impl Chain {
    // The chain that a line says, or the first cause to turn the line down.
    pub fn read(line: &[u8]) -> Result<Chain, Refusal>
        ensures answer { Reading line.now result }
        ensures only { Only (Reading line.now) result }
        ensures exactly { Decides (is_ok result) (Accepted line.now) }
        ensures again { IfOk result (λ c. line.now ≡ line_text (chain_adders c) c.shift) }
    {
        if line.len() > MOST_BYTES {
            return Err(Refusal::LineTooLong);
        }
        let draft = Draft::read(line)?;
        Chain::new(draft.adders(), draft.shift())
    }

    // The chain of these adders and this output shift, or the first rule that they break.
    pub fn new(adders: &[Adder], shift: u8) -> Result<Chain, Refusal>
        ensures answer { Judged adders.now shift result }
        ensures only { Only (Judged adders.now shift) result }
        ensures exactly { Decides (is_ok result) (Keeps adders.now shift) }
    {
        let adders = AdderList::try_from(adders)?;
        constant_of(&adders, shift)?;
        Ok(Chain { adders, shift })
    }

    // Its adders, adder 1 first.
    pub fn adders(&self) -> &[Adder]
        ensures adders { result.now ≡ chain_adders self.now }
        ensures lawful { Keeps result.now self.now.shift }
    {
        self.adders.as_slice()
    }

    // Each of its adders in its slot, the others empty.
    pub fn slots(&self) -> [Option<Adder>; 8]
        ensures { result ≡ eight_slots (chain_adders self.now) }
    {
        self.adders.slots()
    }

    // Its output shift.
    pub fn shift(&self) -> u8
        ensures { result ≡ self.now.shift }
    {
        self.shift
    }

    // What a sample of 1 becomes at the output.
    pub fn constant(&self) -> u32
        ensures value { result ≡ chain_constant self.now }
        ensures range { InRange result }
    {
        constant_of(&self.adders, self.shift).unwrap()
    }

    // What a sample of 1 becomes at an adder, `None` where the chain has no adder of this number.
    pub fn value(&self, adder: usize) -> Option<u32>
        ensures value { result ≡ adder_value_at self.now adder }
        ensures rule { ShiftAndAdd self.now adder result }
    {
        if adder == 0 || adder > self.adders.len() {
            return None;
        }
        let values = values_of(&self.adders).unwrap();
        Some(values[adder])
    }
}

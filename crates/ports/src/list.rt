// A list of inputs in place.
ghost use Rattle.std.specs.Prelude.{◌≡◌, ◌<◌, ◌≤◌, [], ◌∷◌, ◌++◌, length, Ok, Err};
ghost use Rattle.ports.specs.Inputs.{precedes, insert};

use adders::Operand;
use std::marker::Model;

// The most codes that a block has, so that no port has more inputs.
const MOST: usize = 16;

// What a place holds that no input is in.
const SPARE: Operand = Operand {
    source: 0,
    shift: 0,
};

// At most sixteen inputs. Clauses see them as a list; the places past the last one are spare, so that equal lists are equal values.
#[derive(Clone, Copy)]
pub struct InputList {
    places: [Operand; 16],
    len: usize,
}

impl Model for InputList {
    ghost use Rattle.std.specs.Prelude.{◌≡◌, ◌-◌, ◌≤◌, ◌++◌, List, length, take, drop, replicate};
    ghost use Rattle.adders.specs.declared.wiring.Operand.{Operand};
    ghost use Rattle.adders.specs.Values.{spare_operand};
    ghost use Rattle.adders.specs.Lists.{refilled, relen};

    ghost Value = { List Operand };

    ghost view = { λ l. take l.len l.places };

    ghost invariant = { λ l. (l.len ≤ 16) × (length l.places ≡ 16) × (drop l.len l.places ≡ replicate (16 - l.len) spare_operand) };

    ghost inverse = { λ xs. record { places = xs ++ replicate (16 - length xs) spare_operand; len = length xs } };

    ghost inverse_ok = { λ l h i. record { places = refilled l.places l.len 16 spare_operand h.0 h.1 h.2 i; len = relen l.places l.len 16 h.0 h.1 i } };
}

impl InputList {
    pub fn new() -> InputList
        ensures { result ≡ [] }
    {
        InputList {
            places: [SPARE; MOST],
            len: 0,
        }
    }

    // One input more at the end, or the input back where there is no room.
    pub fn push_within_capacity(&mut self, input: Operand) -> Result<(), Operand>
        ensures room { length self.old < 16 → (result ≡ Ok tt) × (self.new ≡ self.old ++ input ∷ []) }
        ensures full { 16 ≤ length self.old → (result ≡ Err input) × (self.new ≡ self.old) }
    {
        if self.len >= MOST {
            return Err(input);
        }
        self.places[self.len] = input;
        self.len += 1;
        Ok(())
    }

    pub fn len(&self) -> usize
        ensures count { result ≡ length self.now }
        ensures few { length self.now ≤ 16 }
    {
        self.as_slice().len()
    }

    pub fn as_slice(&self) -> &[Operand]
        ensures items { result.now ≡ self.now }
        ensures few { length self.now ≤ 16 }
    {
        &self.places[..self.len]
    }

    // How many inputs it would have with this one, which counts where it does not stand there already.
    pub fn len_with(&self, input: Operand) -> usize
        ensures { result ≡ length (insert input self.now) }
    {
        for next in self.as_slice() {
            if precedes(input, *next) {
                return self.len() + 1;
            }
            if !precedes(*next, input) {
                return self.len();
            }
        }
        self.len() + 1
    }

    // The list with an input at its place in the order, unless it stands there already.
    pub(crate) fn with(&self, input: Operand) -> InputList
        requires { length self.now < 16 }
        ensures { result ≡ insert input self.now }
    {
        let mut list = InputList::new();
        let mut left = Some(input);
        for next in self.as_slice() {
            if let Some(new) = left {
                if precedes(new, *next) {
                    let _room = list.push_within_capacity(new);
                    left = None;
                } else if new == *next {
                    left = None;
                }
            }
            let _room = list.push_within_capacity(*next);
        }
        if let Some(new) = left {
            let _room = list.push_within_capacity(new);
        }
        list
    }
}

// Inputs are ordered by source, those of one source by shift.
#[tactic(auto, unfolding(crate::specs::Inputs::precedes))]
fn precedes(first: Operand, second: Operand) -> bool
    ensures { result ≡ precedes first second }
{
    first.source < second.source || first.source == second.source && first.shift < second.shift
}

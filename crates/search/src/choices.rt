// A list of choices in place.
ghost use Rattle.std.specs.Prelude.{◌≡◌, ◌<◌, ◌≤◌, [], ◌∷◌, ◌++◌, length};

use std::marker::Model;

// The most steps.
const MOST: usize = 8;

// At most eight choices, in the order of their steps. Clauses see them as a list; the places past the last one are 0, so that equal lists are equal values.
#[derive(Clone, Copy)]
pub struct ChoiceList {
    places: [u8; 8],
    len: usize,
}

impl Model for ChoiceList {
    ghost use Rattle.std.specs.Prelude.{◌≡◌, ℕ, ◌-◌, ◌≤◌, ◌++◌, List, length, take, drop, replicate};
    ghost use Rattle.adders.specs.Lists.{refilled, relen};

    ghost Value = { List ℕ };

    ghost view = { λ l. take l.len l.places };

    ghost invariant = { λ l. (l.len ≤ 8) × (length l.places ≡ 8) × (drop l.len l.places ≡ replicate (8 - l.len) 0) };

    ghost inverse = { λ xs. record { places = xs ++ replicate (8 - length xs) 0; len = length xs } };

    ghost inverse_ok = { λ l h i. record { places = refilled l.places l.len 8 0 h.0 h.1 h.2 i; len = relen l.places l.len 8 h.0 h.1 i } };
}

impl ChoiceList {
    pub fn new() -> ChoiceList
        ensures { result ≡ [] }
    {
        ChoiceList {
            places: [0; 8],
            len: 0,
        }
    }

    pub fn as_slice(&self) -> &[u8]
        ensures items { result.now ≡ self.now }
        ensures few { length self.now ≤ 8 }
    {
        &self.places[..self.len]
    }

    // The list with one choice more at its end, or as it is where there is no room.
    pub fn with(self, choice: u8) -> ChoiceList
        ensures room { length self < 8 → result ≡ self ++ choice ∷ [] }
        ensures full { 8 ≤ length self → result ≡ self }
    {
        if self.len >= MOST {
            return self;
        }
        let mut list = self;
        list.places[list.len] = choice;
        list.len += 1;
        list
    }
}

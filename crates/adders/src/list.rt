// A list of adders in place, with room for a fixed number of them.
ghost use Rattle.std.specs.Prelude.{◌≡◌, ◌-◌, ◌<◌, ◌≤◌, [], ◌∷◌, ◌++◌, length, map, replicate, Some, None, Ok, Err, slice_get};
ghost use Rattle.adders.specs.Rules.{FewEnough};

use crate::refusals::Refusal;
use crate::wiring::Adder;
use std::marker::Model;

// At most N adders. Clauses see them as a list; the slots past the last one are spare, so that equal lists are equal values.
#[derive(Clone, Copy)]
pub struct AdderList<const N: usize> {
    slots: [Adder; N],
    len: usize,
}

impl<const N: usize> Model for AdderList<N> {
    ghost use Rattle.std.specs.Prelude.{◌≡◌, ◌-◌, ◌≤◌, ◌++◌, List, length, take, drop, replicate};
    ghost use Rattle.adders.specs.declared.wiring.Adder.{Adder};
    ghost use Rattle.adders.specs.Values.{spare_adder};
    ghost use Rattle.adders.specs.Lists.{refilled, relen};

    ghost Value = { List Adder };

    ghost view = { λ l. take l.len l.slots };

    ghost invariant = { λ l. (l.len ≤ N) × (length l.slots ≡ N) × (drop l.len l.slots ≡ replicate (N - l.len) spare_adder) };

    ghost inverse = { λ xs. record { slots = xs ++ replicate (N - length xs) spare_adder; len = length xs } };

    ghost inverse_ok = { λ l h i. record { slots = refilled l.slots l.len N spare_adder h.0 h.1 h.2 i; len = relen l.slots l.len N h.0 h.1 i } };
}

impl<const N: usize> AdderList<N> {
    pub fn new() -> AdderList<N>
        ensures { result ≡ [] }
    {
        AdderList {
            slots: [Adder::SPARE; N],
            len: 0,
        }
    }

    // One adder more at the end, or the adder back where there is no room.
    pub fn push_within_capacity(&mut self, adder: Adder) -> Result<(), Adder>
        ensures room { length self.old < N → (result ≡ Ok tt) × (self.new ≡ self.old ++ adder ∷ []) }
        ensures full { N ≤ length self.old → (result ≡ Err adder) × (self.new ≡ self.old) }
    {
        if self.len >= N {
            return Err(adder);
        }
        self.slots[self.len] = adder;
        self.len += 1;
        Ok(())
    }

    pub fn len(&self) -> usize
        ensures count { result ≡ length self.now }
        ensures few { length self.now ≤ N }
    {
        self.as_slice().len()
    }

    pub fn as_slice(&self) -> &[Adder]
        ensures items { result.now ≡ self.now }
        ensures few { length self.now ≤ N }
    {
        &self.slots[..self.len]
    }

    // Each adder in its slot, the others empty.
    pub fn slots(&self) -> [Option<Adder>; N]
        ensures slots { result ≡ map Some self.now ++ replicate (N - length self.now) None }
        ensures few { length self.now ≤ N }
    {
        let adders = self.as_slice();
        let mut slots = [None; N];
        for (i, adder) in adders.iter().enumerate() {
            slots[i] = Some(*adder);
        }
        slots
    }
}

// The adders of a chain, which has room for eight.
impl TryFrom<&[Adder]> for AdderList<8> {
    type Error = Refusal;

    ghost try_from_gives = { λ adders. FewEnough adders.now };

    fn try_from(adders: &[Adder]) -> Result<AdderList<8>, Refusal> {
        if adders.len() > 8 {
            return Err(Refusal::TooManyAdders);
        }
        let mut slots = [Adder::SPARE; 8];
        slots[..adders.len()].copy_from_slice(adders);
        Ok(AdderList {
            slots,
            len: adders.len(),
        })
    }
}

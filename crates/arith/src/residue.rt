// Residues by a modulus that their kind names.
ghost use Rattle.std.specs.Prelude.{◌≡◌, ℕ, ◌*◌, ◌%◌, ◌<◌};
ghost use Rattle.std.proofs.Common.{lit≤};
ghost use Rattle.arith.specs.Remainders.{Below, Modular, residues, residue, reduced_by, modular_positive};
ghost use Rattle.arith.specs.Moduli.{remainder_laws, remainder_product};

use crate::arithmetic::Arithmetic;
use std::marker::PhantomData;

// By how much a number of 32 bits can be shifted within 64.
const MOST_AT_ONCE: u8 = 32;

// A kind of residue, which names its modulus, from 2 to 65,536.
pub trait Modulus {
    const MODULUS: u32;

    ghost MODULUS: { ℕ };

    ghost bounds: { Modular MODULUS };
}

#[derive(Clone, Copy, Default, PartialEq, Eq, Debug)]
pub struct Mod255;

impl Modulus for Mod255 {
    const MODULUS: u32 = 255;

    ghost MODULUS = { 255 };

    ghost bounds = { record { least = lit≤ tt; most = lit≤ tt } };
}

#[derive(Clone, Copy, Default, PartialEq, Eq, Debug)]
pub struct Mod257;

impl Modulus for Mod257 {
    const MODULUS: u32 = 257;

    ghost MODULUS = { 257 };

    ghost bounds = { record { least = lit≤ tt; most = lit≤ tt } };
}

// Any number, which means its remainder by the modulus of its kind. Every operation answers a remainder.
#[derive_where(Clone, Copy)]
pub struct Residue<K> {
    pub number: u32,
    pub kind: PhantomData<K>,
}

impl<K> Residue<K> {
    // A number as it stands.
    pub fn new(number: u32) -> Residue<K>
        ensures { result.number ≡ number }
    {
        Residue {
            number,
            kind: PhantomData,
        }
    }
}

// The remainder of a whole number.
impl<K: Modulus> From<i64> for Residue<K> {
    ghost from_gives = { λ integer x. x.number ≡ reduced_by K.Modulus.MODULUS integer };

    fn from(integer: i64) -> Residue<K> {
        Residue::new(integer.rem_euclid(i64::from(K::MODULUS)) as u32)
    }
}

#[tactic(auto, using(crate::proofs::ResidueLemmas::residues_compute))]
impl<K: Modulus> Arithmetic for Residue<K> {
    ghost Meaning = { Below K.Modulus.MODULUS };

    ghost operations = { residues K.Modulus.bounds };

    ghost means = { λ x. residue K.Modulus.bounds x.number };

    ghost Settled = { λ x. x.number < K.Modulus.MODULUS };

    ghost Product = { λ n x r. r.number ≡ (n * x.number) % K.Modulus.MODULUS };

    ghost laws = { remainder_laws K.Modulus.MODULUS (modular_positive K.Modulus.bounds) };

    ghost multiplied = { λ n x r h e. remainder_product K.Modulus.MODULUS (modular_positive K.Modulus.bounds) n x.number r.number h e };

    fn neutral() -> Residue<K> {
        Residue::new(0)
    }

    fn sum(self, other: Residue<K>) -> Residue<K> {
        let m = K::MODULUS;
        Residue::new((self.number % m + other.number % m) % m)
    }

    fn difference(self, other: Residue<K>) -> Residue<K> {
        let m = K::MODULUS;
        Residue::new((self.number % m + (m - other.number % m)) % m)
    }

    // One product with a power of two as far as 64 bits go, and a doubling for each place past them.
    fn shifted(self, shift: u8) -> Residue<K> {
        let m = u64::from(K::MODULUS);
        let first = shift.min(MOST_AT_ONCE);
        let mut number = (u64::from(self.number) << first) % m;
        for _turn in first..shift {
            number = 2 * number % m;
        }
        Residue::new(number as u32)
    }
}

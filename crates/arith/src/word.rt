// Words of 64 bits, two's complement, whose sums and differences wrap.
ghost use Rattle.std.specs.Prelude.{◌≡◌, ◌^◌};
ghost use Rattle.arith.specs.Remainders.{Below};
ghost use Rattle.arith.specs.Words.{InWord, WordProduct, word_meaning, words, bits_positive};
ghost use Rattle.arith.specs.Moduli.{remainder_laws};
ghost use Rattle.arith.specs.Integers.{word_product};

use crate::arithmetic::Arithmetic;

#[derive(Clone, Copy, PartialEq, Eq, Debug)]
pub struct Word {
    pub value: i64,
}

impl From<i64> for Word {
    ghost from_gives = { λ integer w. w.value ≡ integer };

    fn from(value: i64) -> Word {
        Word { value }
    }
}

#[tactic(auto, using(crate::proofs::WordLemmas::words_compute))]
impl Arithmetic for Word {
    ghost Meaning = { Below (2 ^ 64) };

    ghost operations = { words };

    ghost means = { λ w. word_meaning w.value };

    ghost Settled = { λ w. InWord w.value };

    ghost Product = { λ n x r. WordProduct n x.value r.value };

    ghost laws = { remainder_laws (2 ^ 64) bits_positive };

    ghost multiplied = { λ n x r h e. word_product n x.value r.value h e };

    fn neutral() -> Word {
        Word { value: 0 }
    }

    fn sum(self, other: Word) -> Word {
        Word {
            value: self.value.wrapping_add(other.value),
        }
    }

    fn difference(self, other: Word) -> Word {
        Word {
            value: self.value.wrapping_sub(other.value),
        }
    }

    // A shift of the bits, in place of so many sums.
    fn shifted(self, shift: u8) -> Word {
        Word {
            value: self.value.checked_shl(u32::from(shift)).unwrap_or(0),
        }
    }
}

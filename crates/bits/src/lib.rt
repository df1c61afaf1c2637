// Bits: how many two-way choices tell so many things apart, and how many bits a value takes.
#![tactic(auto)]

ghost use Rattle.std.specs.Prelude.{◌≡◌, ◌≤◌};
ghost use Rattle.bits.specs.Bits.{bits, BitsAreLeast};

const MOST_BITS: u32 = 32;

// The least number of bits whose power of two is at least a value.
#[tactic(auto, using(crate::proofs::Least::bits_found))]
pub fn bits(value: u32) -> u32
    ensures count { result ≡ bits value }
    ensures few { result ≤ 32 }
{
    for count in 0..MOST_BITS {
        if value <= 1 << count {
            return count;
        }
    }
    MOST_BITS
}

// The bits of a value are the least whose power of two is at least the value.
#[tactic(auto, using(crate::proofs::Least::bits_least))]
pub fn bits_are_least()
    ensures { BitsAreLeast }
{}

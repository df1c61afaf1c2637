// What the definitions of the arithmetics come to.
ghost use Rattle.std.specs.Prelude.{◌≡◌, ℕ, ◌^◌};
ghost use Rattle.arith.specs.Operations.{times, doubled, paired};
ghost use Rattle.arith.specs.Words.{OneWordProduct};

use crate::arithmetic::Arithmetic;

// The product of a number and a word is one word.
pub fn words_have_one_product()
    ensures { OneWordProduct }
{}

// Each half of a frame is multiplied by itself.
#[tactic(auto, using(crate::specs::Times::times_pair))]
pub fn frames_multiply_by_halves<L: Arithmetic, R: Arithmetic>()
    ensures { (n : ℕ) (x : L) (y : R) → times (paired L.Arithmetic.operations R.Arithmetic.operations) n (L.Arithmetic.means x, R.Arithmetic.means y) ≡ (times L.Arithmetic.operations n (L.Arithmetic.means x), times R.Arithmetic.operations n (R.Arithmetic.means y)) }
{}

// In every arithmetic, s doublings of a sample are 2^s copies of it.
#[tactic(auto, using(crate::specs::Times::doubled_times))]
pub fn doublings_multiply<X: Arithmetic>()
    ensures { (s : ℕ) (x : X) → doubled X.operations s (X.means x) ≡ times X.operations (2 ^ s) (X.means x) }
{}

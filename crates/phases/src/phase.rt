// Phases, of which 2^32 steps make a turn, as the accumulator of a numerically controlled oscillator counts them.
ghost use Rattle.std.specs.Prelude.{◌≡◌, ◌*◌, ◌%◌, ◌^◌, ◌<◌};
ghost use Rattle.arith.specs.Remainders.{Below, remainder, remainders};
ghost use Rattle.phases.specs.Turns.{turn_positive};
ghost use Rattle.arith.specs.Moduli.{remainder_laws, remainder_product};

use arith::Arithmetic;

#[derive(Clone, Copy)]
pub struct Phase {
    pub steps: u32,
}

// A phase means what is left of it after whole turns; its shift is left to the doublings of the trait.
#[tactic(auto, using(arith::specs::Moduli::same_remainder))]
impl Arithmetic for Phase {
    ghost Meaning = { Below (2 ^ 32) };

    ghost operations = { remainders (2 ^ 32) turn_positive };

    ghost means = { λ p. remainder (2 ^ 32) turn_positive p.steps };

    ghost Settled = { λ p. p.steps < 2 ^ 32 };

    ghost Product = { λ n x r. r.steps ≡ (n * x.steps) % 2 ^ 32 };

    ghost laws = { remainder_laws (2 ^ 32) turn_positive };

    ghost multiplied = { λ n x r h e. remainder_product (2 ^ 32) turn_positive n x.steps r.steps h e };

    fn neutral() -> Phase {
        Phase { steps: 0 }
    }

    fn sum(self, other: Phase) -> Phase {
        Phase {
            steps: self.steps.wrapping_add(other.steps),
        }
    }

    fn difference(self, other: Phase) -> Phase {
        Phase {
            steps: self.steps.wrapping_sub(other.steps),
        }
    }
}

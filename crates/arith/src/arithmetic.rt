// What every arithmetic has, and owes.
ghost use Rattle.std.specs.Prelude.{◌≡◌, ℕ};
ghost use Rattle.arith.specs.Operations.{Operations, Laws, times, doubled};

// Samples that can be added, subtracted and shifted. What each operation answers is fixed by the meanings of its arguments alone.
pub trait Arithmetic: Copy {
    // What samples mean. Several samples may mean the same.
    ghost Meaning: { Type 0 };

    // The neutral meaning, the sum and the difference of meanings.
    ghost operations: { Operations Meaning };

    ghost means: { Self → Meaning };

    // A sample in the form in which every operation answers. It may be left out where any form will do.
    ghost Settled: { Self → Type 0 } = { λ _. Unit {0} };

    // The second sample is n times the first, in this arithmetic's own words. It may be left out where meanings are enough.
    ghost Product: { ℕ → Self → Self → Type 0 } = { λ _ _ _. Unit {0} };

    fn neutral() -> Self
        ensures meaning { means result ≡ operations.neutral }
        ensures settled { Settled result };

    fn sum(self, other: Self) -> Self
        ensures meaning { means result ≡ operations.plus (means self) (means other) }
        ensures settled { Settled result };

    fn difference(self, other: Self) -> Self
        ensures meaning { means result ≡ operations.minus (means self) (means other) }
        ensures settled { Settled result };

    // So many doublings. An arithmetic that has a faster way writes its own.
    fn shifted(self, shift: u8) -> Self
        ensures meaning { means result ≡ doubled operations shift (means self) }
        ensures settled { Settled result }
    {
        // the neutral sample changes no meaning, and the sum is settled where nothing is doubled
        let mut sample = self.sum(Self::neutral());
        for _turn in 0..shift {
            sample = sample.sum(sample);
        }
        sample
    }

    ghost laws: { Laws operations };

    // Those words hold wherever the meaning was added up n times.
    ghost multiplied: { (n : ℕ) (x r : Self) → Settled r → means r ≡ times operations n (means x) → Product n x r };
}

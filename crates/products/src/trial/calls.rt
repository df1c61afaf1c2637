// Founding and moving, and the products of a sample.
ghost use Rattle.std.specs.Prelude.{◌≡◌};
ghost use Rattle.adders.specs.Rules.{Answered};
ghost use Rattle.blocks.specs.Blocks.{constant_at};
ghost use Rattle.blocks.specs.Calls.{founding_rules};
ghost use Rattle.products.specs.Trials.{TrialOf, ProductsOf};

use super::Trial;
use crate::report::ProductReport;
use adders::Refusal;
use arith::Word;
use blocks::Block;
use chains::Chain;

// The widest sample that a block has; products do not depend on it.
const WIDTH: usize = 32;

impl Trial {
    // Founds the chain at a code, and then moves the shifts of an adder there.
    pub fn new(chain: &Chain, code: usize, adder: usize, amount: i64) -> Result<Trial, Refusal>
        ensures { Answered (founding_rules code 32) (λ t. TrialOf chain.now code adder amount t) result }
    {
        let mut before = Block::new();
        before.found(chain, code, WIDTH)?;
        let mut after = before;
        let outcome = after.move_shifts(code, adder, amount);
        Ok(Trial {
            code,
            before,
            after,
            outcome,
        })
    }

    // How the move was answered.
    pub fn outcome(&self) -> Result<(), Refusal>
        ensures { result ≡ self.now.outcome }
    {
        self.outcome
    }

    // The products of a sample.
    pub fn products(&self, sample: i64) -> ProductReport
        ensures products { ProductsOf (constant_at self.now.before self.now.code) sample result }
        ensures same { result.after ≡ result.before }
    {
        let sample = Word::from(sample);
        ProductReport {
            before: self.before.run(self.code, sample).unwrap().value,
            after: self.after.run(self.code, sample).unwrap().value,
        }
    }
}

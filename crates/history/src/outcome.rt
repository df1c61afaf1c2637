// What a call on a block answers.
ghost use Rattle.std.specs.Prelude.{◌≡◌};
ghost use Rattle.history.specs.Outcomes.{outcome_of, priced_of};

use adders::Refusal;

#[derive(Clone, Copy, PartialEq, Eq)]
pub enum Outcome {
    // a founding, a retiring or a move was done
    Done,
    // a fusing was done, and this is the block's new price
    Priced(u32),
    // the call was turned down, and the block is as it was
    Refused(Refusal),
}

impl From<Result<(), Refusal>> for Outcome {
    ghost from_gives = { λ answer outcome. outcome ≡ outcome_of answer };

    fn from(answer: Result<(), Refusal>) -> Outcome {
        match answer {
            Ok(()) => Outcome::Done,
            Err(refusal) => Outcome::Refused(refusal),
        }
    }
}

impl From<Result<u32, Refusal>> for Outcome {
    ghost from_gives = { λ answer outcome. outcome ≡ priced_of answer };

    fn from(answer: Result<u32, Refusal>) -> Outcome {
        match answer {
            Ok(price) => Outcome::Priced(price),
            Err(refusal) => Outcome::Refused(refusal),
        }
    }
}

// The inputs of a port line.
ghost use Rattle.std.specs.Prelude.{◌≡◌, List, [], ◌∷◌, ◌++◌};
ghost use Rattle.adders.specs.declared.wiring.Operand.{Operand};
ghost use Rattle.texts.specs.Listings.{Lists};

use adders::Operand;
use ports::InputList;

// The first sixteen inputs, and whether there are more.
#[derive(Clone, Copy)]
pub struct Listing {
    pub first: InputList,
    pub more: bool,
}

impl Listing {
    pub(crate) fn new() -> Listing
        ensures { Lists result [] }
    {
        Listing {
            first: InputList::new(),
            more: false,
        }
    }

    // One input more at the end.
    pub(crate) fn push(&mut self, input: Operand)
        ensures { (inputs : List Operand) → Lists self.old inputs → Lists self.new (inputs ++ input ∷ []) }
    {
        if self.first.push_within_capacity(input).is_err() {
            self.more = true;
        }
    }
}

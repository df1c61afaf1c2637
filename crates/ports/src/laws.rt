// What a port's inputs are.
ghost use Rattle.ports.specs.InputLaws.{InputsLaw};
ghost use Rattle.ports.specs.Fewer.{SomeInputs};

// A port's inputs are the operands that live rows put there, each once, in ascending order.
#[tactic(auto, using(crate::proofs::Ascending::inputs_law))]
pub fn inputs_are_what_rows_put()
    ensures { InputsLaw }
{}

// A block with some of the rows of another has no input at a port that the other has not.
pub fn some_rows_put_some_inputs()
    ensures { SomeInputs }
{}

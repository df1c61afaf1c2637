// What a move comes to.
ghost use Rattle.moves.specs.Scaling.{MovingScales};

// Moving scales the value of the moved adder and leaves every other.
#[tactic(auto, using(crate::proofs::Scales::moving_scales))]
pub fn moving_scales_one_value()
    ensures { MovingScales }
{}

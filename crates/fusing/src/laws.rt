// What holds of every fusing.
ghost use Rattle.fusing.specs.Causes.{CausesInOrder};
ghost use Rattle.fusing.specs.Fusing.{FusingIsDetermined};
ghost use Rattle.fusing.specs.Swaps.{InPlaceStays, SwapsPay};

// The placement, the answer and the block after it are determined by the block before, the chain, the code and the prices.
pub fn fusing_is_determined()
    ensures { FusingIsDetermined }
{}

// An adder is swapped only where the block would cost more with it as it is.
pub fn swaps_have_to_pay()
    ensures { SwapsPay }
{}

// An adder is not swapped where both of its operands add nothing at their ports as it is.
pub fn operands_in_place_are_not_swapped()
    ensures { InPlaceStays }
{}

// A fusing is turned down for a cause that is met, while none before it is: the code, then that it is live, then too few adders.
pub fn causes_are_told_in_order()
    ensures { CausesInOrder }
{}

// What the search for a placement is given.
ghost use Rattle.std.specs.Prelude.{◌≡◌, ℕ, ◌≤◌};

use prices::PriceList;
use rises::{HeldAdder, HeldPort, ValuedAdder, ValuedOperand};

pub mod making;
pub mod steps;

// A chain and a block, each by what pricing asks of it, and the list of prices.
#[derive(Drop)]
pub struct Task<'a, L> {
    list: &'a L,
    sample: u8,
    count: u8,
    length: usize,
    uses: [Option<ValuedAdder>; 8],
    output: ValuedOperand,
    held: [HeldAdder; 8],
    held_output: HeldPort,
    ghost few: { length ≤ 8 },
}

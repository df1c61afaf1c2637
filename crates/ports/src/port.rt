// Where operands enter.
ghost use Rattle.std.specs.Prelude.{◌≡◌, ◌≤◌};
ghost use Rattle.ports.specs.Ports.{operand_at, nth_port};

use adders::Operand;
use rows::Row;

// An adder's left or right, by the adder's number, or the block's output.
#[derive(Clone, Copy, Debug, PartialEq, Eq)]
pub enum Port {
    Left(usize),
    Right(usize),
    Output,
}

impl Port {
    // The port at a place, counted from 0, in the order of a block with so many adders: left and right of each adder, ascending, and the output last.
    pub fn nth(place: usize, adders: usize) -> Port
        ensures { result ≡ nth_port adders place }
    {
        if place / 2 >= adders {
            return Port::Output;
        }
        let adder = place / 2 + 1;
        if place % 2 == 0 {
            Port::Left(adder)
        } else {
            Port::Right(adder)
        }
    }

    // The operand that a row puts there.
    pub fn operand_of(self, row: &Row) -> Option<Operand>
        ensures { result ≡ operand_at row.now self }
    {
        match self {
            Port::Left(adder) => Some(row.adder(adder)?.left),
            Port::Right(adder) => Some(row.adder(adder)?.right),
            Port::Output => Some(row.output()),
        }
    }
}

// What a row puts somewhere.
ghost use Rattle.std.specs.Prelude.{◌≡◌};
ghost use Rattle.rows.specs.Rows.{adder_at};
ghost use Rattle.ports.specs.Ports.{operand_at};
ghost use Rattle.rises.specs.Uses.{operand_used, adder_used};

use super::{ValuedAdder, ValuedOperand};
use bits::bits;
use ports::Port;
use pricing::operand_value;
use rows::Row;

impl ValuedOperand {
    // What a row puts at a port.
    pub fn of(row: &Row, port: Port) -> Option<ValuedOperand>
        ensures { result ≡ operand_used row.now (operand_at row.now port) }
    {
        Some(ValuedOperand {
            operand: port.operand_of(row)?,
            bits: bits(operand_value(row, port)?) as u8,
        })
    }
}

impl ValuedAdder {
    // How a row uses an adder.
    pub fn of(row: &Row, adder: usize) -> Option<ValuedAdder>
        ensures { result ≡ adder_used row.now adder (adder_at row.now adder) }
    {
        Some(ValuedAdder {
            left: ValuedOperand::of(row, Port::Left(adder))?,
            sign: row.adder(adder)?.sign,
            right: ValuedOperand::of(row, Port::Right(adder))?,
            bits: bits(row.value(adder)?) as u8,
        })
    }
}

// What a row puts at an adder and at a port, with the bits of what it makes of a sample of 1 there. The calls stand in a module below, since they cite definitions that name these.
use adders::{Operand, Sign};

pub mod calls;

#[derive(Clone, Copy)]
pub struct ValuedOperand {
    pub operand: Operand,
    pub bits: u8,
}

#[derive(Clone, Copy)]
pub struct ValuedAdder {
    pub left: ValuedOperand,
    pub sign: Sign,
    pub right: ValuedOperand,
    pub bits: u8,
}

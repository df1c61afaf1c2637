// What the live rows of a block have at its parts. The calls stand in a module below, since they cite definitions that name these.
use ports::InputList;
use pricing::SignsMet;

pub mod calls;

// At a port: its inputs and the bits of the largest of their values.
#[derive(Clone, Copy)]
pub struct HeldPort {
    inputs: InputList,
    bits: u8,
}

// At an adder: its two ports, the signs that are met, the bits of its largest value, and what it costs with its ports.
#[derive(Clone, Copy)]
pub struct HeldAdder {
    left: HeldPort,
    right: HeldPort,
    signs: SignsMet,
    bits: u8,
    price: u32,
}

// Whether one row more has its operands there exchanged, and what it costs.
#[derive(Clone, Copy)]
pub struct Way {
    pub swapped: bool,
    pub rise: u32,
}

// The wires of a block. Their widths stand in a module below, since they cite definitions that name them.
use ports::Port;

pub mod widths;

// What leaves an adder, by its number, or the multiplexer of a port.
#[derive(Clone, Copy, Debug, PartialEq, Eq)]
pub enum Net {
    OfAdder(usize),
    OfPort(Port),
}

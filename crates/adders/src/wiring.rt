// What an adder reads and what it makes of it.

// A source under a left shift: source 0 is the sample, source j is adder j.
#[derive(Clone, Copy, Debug, PartialEq, Eq)]
pub struct Operand {
    pub source: u8,
    pub shift: u8,
}

// Plus adds the right operand to the left one, minus takes it away.
#[derive(Clone, Copy, Debug, PartialEq, Eq)]
pub enum Sign {
    Plus,
    Minus,
}

#[derive(Clone, Copy, Debug, PartialEq, Eq)]
pub struct Adder {
    pub left: Operand,
    pub sign: Sign,
    pub right: Operand,
}

impl Adder {
    // What a slot holds that no adder is in.
    pub const SPARE: Adder = Adder {
        left: Operand {
            source: 0,
            shift: 0,
        },
        sign: Sign::Plus,
        right: Operand {
            source: 0,
            shift: 0,
        },
    };
}

// What a code line says.
use adders::Sign;

// Which inputs of an adder's two ports a code selects, by their numbers in the port lines, and its sign.
#[derive(Clone, Copy)]
pub struct Selection {
    pub left: u8,
    pub sign: Sign,
    pub right: u8,
}

// For each of eight adders nothing or what the code selects there, and the input of the output.
#[derive(Clone, Copy)]
pub struct Selections {
    pub adders: [Option<Selection>; 8],
    pub output: u8,
}

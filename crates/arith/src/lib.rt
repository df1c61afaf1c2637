// Arithmetics: samples that can be added, subtracted and shifted, and what they mean.
#![tactic(auto)]

mod arithmetic;
mod frame;
mod laws;
mod residue;
mod word;

pub use arithmetic::Arithmetic;
pub use frame::Frame;
pub use laws::{doublings_multiply, frames_multiply_by_halves, words_have_one_product};
pub use residue::{Mod255, Mod257, Modulus, Residue};
pub use word::Word;

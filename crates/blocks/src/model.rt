// A block that keeps its rules. Its calls stand in modules below, since they cite definitions that name it.
ghost use Rattle.std.specs.Prelude.{◌≡◌, ℕ, ◌<◌, ◌≤◌, false, length};
ghost use Rattle.blocks.specs.Uses.{uses};

use rows::Row;
use tables::Table;

pub mod calls;
pub mod filling;
pub mod runs;

// The widest sample.
const MOST_BITS: usize = 32;

// How many adders it has, how many bits a sample, and the row of each live code. No row uses an adder that it has not.
#[derive(Clone, Copy)]
pub struct Block {
    adders: u8,
    width: u8,
    table: Table<Row>,
    ghost few: { adders ≤ 8 },
    ghost some_bits: { 1 ≤ width },
    ghost few_bits: { width ≤ 32 },
    ghost room: { length table.rows ≡ 16 },
    ghost within: { (code adder : ℕ) → adders < adder → uses table code adder ≡ false },
}

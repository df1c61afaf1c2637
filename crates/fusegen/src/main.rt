// Reads a sample width and chain lines from standard input, fuses them into one block under the count list, and prints the block's wiring sheet, or what is turned down.
#![tactic(auto)]

mod answer;
mod generate;
mod script;

use answer::print_answer;
use std::io;
use std::io::Read;

// One byte more than an input may have, by which a longer one is told.
const MOST_READ: u64 = 4097;

fn main(rt: HostRuntime) -> io::Result<()> {
    let heap = rt.alloc();
    let mut input = Vec::new(heap);
    rt.stdin().take(MOST_READ).read_to_end(&mut input)?;
    print_answer(&rt, heap, input.as_slice())
}

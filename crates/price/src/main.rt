// Reads unit prices and a wiring sheet from standard input, and prints the parts of the block and what it costs, or why the input is turned down.
#![tactic(auto)]

mod parts;
mod report;

use report::calls::print_report;
use std::io;
use std::io::Read;

// The longest line of unit prices with its line feed, and one byte more than a sheet may have, by which a longer input is told.
const MOST_READ: u64 = 46 + 4097;

fn main(rt: HostRuntime) -> io::Result<()> {
    let mut input = Vec::new(rt.alloc());
    rt.stdin().take(MOST_READ).read_to_end(&mut input)?;
    print_report(&rt, input.as_slice())
}

// Reads a wiring sheet from standard input, and prints the constant of each live code and the depth of the block, or why the sheet is turned down.
#![tactic(auto)]

mod block;
mod report;

use report::print_report;
use std::io;
use std::io::Read;

// One byte more than a sheet may have, by which a longer input is told.
const MOST_READ: u64 = 4097;

fn main(rt: HostRuntime) -> io::Result<()> {
    let mut sheet = Vec::new(rt.alloc());
    rt.stdin().take(MOST_READ).read_to_end(&mut sheet)?;
    print_report(&rt, sheet.as_slice())
}

// Reads chain lines from standard input, and prints for each its constant, or the number and the place of its refusal.
#![tactic(auto)]

mod report;

use report::print_report;
use std::io;
use std::io::{BufRead, BufReader};

fn main(rt: HostRuntime) -> io::Result<()> {
    let heap = rt.alloc();
    for line in BufReader::new(heap, rt.stdin())?.split(heap, b'\n') {
        print_report(&rt, line?.as_slice())?;
    }
    Ok(())
}

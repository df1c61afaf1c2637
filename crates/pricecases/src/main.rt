// Prices blocks under several lists, retires each of their codes, makes per-bit lists, and prints for each case what is answered.
#![tactic(auto)]

mod drawn;
mod makings;
mod outcome;
mod shaped;
mod steps;
mod values;

use std::io;

fn main(rt: HostRuntime) -> io::Result<()> {
    shaped::print_all(&rt)?;
    drawn::print_all(&rt)?;
    makings::print_all(&rt)?;
    values::print_all(&rt)
}

// Compares what the calls on a block answer, and what they leave, with tables and short histories.
#![tactic(auto)]

mod codes;
mod histories;
mod moving;

use std::io;

// How many of some cases agree; the others are named.
fn report(rt: &HostRuntime, name: &str, cases: &[(&'static str, bool)]) -> io::Result<()> {
    let mut agreed = 0usize;
    for (case, agrees) in cases {
        if *agrees {
            agreed = agreed.saturating_add(1);
        } else {
            println!(rt; "differs: {case}")?;
        }
    }
    println!(rt; "{name}: {agreed} of {} agree", cases.len())
}

fn main(rt: HostRuntime) -> io::Result<()> {
    report(&rt, "accepted moves", &moving::accepted())?;
    report(&rt, "moves refused by the row", &moving::refused())?;
    report(&rt, "foundings", &codes::foundings())?;
    report(&rt, "idle codes and codes above 15", &codes::turned_down())?;
    report(&rt, "histories", &histories::all())
}

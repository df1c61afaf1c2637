// Compares what making a row answers with a table of rows, and what running answers with products that were worked out by hand.
#![tactic(auto)]

mod samples;
mod table;

use std::io;
use table::Case;

// How many cases of a table agree; the others are named.
fn compare(rt: &HostRuntime, name: &str, cases: &[Case]) -> io::Result<()> {
    for case in cases.iter().filter(|case| !case.agrees()) {
        let name = case.name;
        println!(rt; "differs: {name}")?;
    }
    let agreed = cases.iter().filter(|case| case.agrees()).count();
    println!(rt; "{name}: {agreed} of {} agree", cases.len())
}

fn main(rt: HostRuntime) -> io::Result<()> {
    compare(&rt, "sources and shifts", &table::wirings())?;
    compare(&rt, "unread adders", &table::unread())?;
    compare(&rt, "read adders", &table::read())?;
    compare(&rt, "values", &table::ranges())?;
    let verdicts = [
        ("adders of a row", table::adders_agree()),
        ("moduli at the limits", samples::moduli_agree()),
        ("residues that are not reduced", samples::unreduced_agree()),
        ("shifts of words", samples::shifts_agree()),
        ("buffers", samples::buffers_agree()),
        ("buffers of different lengths", samples::lengths_agree()),
    ];
    for (name, agrees) in verdicts {
        let verdict = if agrees { "agree" } else { "differ" };
        println!(rt; "{name} {verdict}")?;
    }
    Ok(())
}

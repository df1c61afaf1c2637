// Making per-bit lists, at their bounds and past them.
use prices::{PerBitList, UnitPrices};
use std::io;

const CASES: [[u32; 4]; 20] = [
    [0, 0, 0, 0],
    [1000, 1000, 1000, 1000],
    [4, 5, 6, 2],
    [6, 5, 6, 2],
    [4, 6, 6, 2],
    [1001, 0, 0, 0],
    [0, 1001, 0, 0],
    [0, 0, 1001, 0],
    [0, 0, 0, 1001],
    [1001, 1001, 1001, 1001],
    [7, 5, 6, 2],
    [4, 7, 6, 2],
    [7, 7, 6, 2],
    [1000, 0, 999, 0],
    [0, 1000, 999, 0],
    [0, 0, 0, 1000],
    [1001, 0, 1000, 0],
    [4294967295, 0, 0, 0],
    [0, 0, 0, 4294967295],
    [1000, 1000, 999, 1001],
];

fn print(rt: &impl Print, units: [u32; 4]) -> io::Result<()> {
    let [adds, subtracts, both, two_to_one] = units;
    print!(rt; "units {adds} {subtracts} {both} {two_to_one}: ")?;
    match PerBitList::new(UnitPrices {
        adds,
        subtracts,
        both,
        two_to_one,
    }) {
        Ok(_list) => println!(rt; "made"),
        Err(refusal) => println!(rt; "{} at {}", refusal.number(), refusal.place()),
    }
}

pub fn print_all(rt: &impl Print) -> io::Result<()> {
    for units in &CASES {
        print(rt, *units)?;
    }
    Ok(())
}

// Inputs that no row selects, and sheets that are accepted all the same.
use crate::edits::{Edit, print_edits};
use blocks::Block;
use std::alloc::Global;
use std::io;

const SELECTED: [Edit; 11] = [
    Edit(
        "an input of a left that no row selects",
        &[("1L=0.0", "1L=0.0 0.5")],
    ),
    Edit(
        "an input of a right that no row selects",
        &[("0.2 0.1", "0.2 0.1 0.3")],
    ),
    Edit(
        "a first input that no row selects",
        &[
            ("2L=1.0", "2L=0.7 1.0"),
            ("s00=0+0 0+0", "s00=0+0 1+0"),
            ("s01=0+1 0+1", "s01=0+1 1+1"),
        ],
    ),
    Edit(
        "an input of the output that no row selects",
        &[("out=2.0", "out=2.0 1.0")],
    ),
    Edit(
        "inputs at two ports that no row selects",
        &[("1.3 0.4", "1.3 0.4 0.5"), ("out=2.0", "out=2.0 1.0")],
    ),
    Edit(
        "inputs at a left and its right",
        &[("1L=0.0", "1L=0.0 0.5"), ("0.2 0.1", "0.2 0.1 0.3")],
    ),
    Edit(
        "an input of a row that does not use its adder",
        &[("out=2.0", "out=2.0 1.0"), ("0+1 0+1 0", "0+1 - 1")],
    ),
    Edit(
        "a row's form before such an input",
        &[("1L=0.0", "1L=0.0 0.5"), ("0+1 0+1 0", "0+1 0+1")],
    ),
    Edit(
        "a broken rule before such an input",
        &[("1L=0.0", "1L=0.0 0.5"), ("0+1 0+1 0", "0-1 0+1 0")],
    ),
    Edit(
        "a row that uses fewer adders",
        &[
            ("0.2 0.1", "0.2"),
            ("1.3 0.4", "1.3"),
            ("out=2.0", "out=2.0 0.3"),
            ("0+1 0+1 0", "- - 1"),
        ],
    ),
    Edit(
        "inputs in another order",
        &[
            ("0.2 0.1", "0.1 0.2"),
            ("s00=0+0", "s00=0+1"),
            ("s01=0+1", "s01=0+0"),
        ],
    ),
];

pub fn print_all(rt: &impl Print, heap: Global, before: &Block) -> io::Result<()> {
    print_edits(rt, heap, before, &SELECTED)
}

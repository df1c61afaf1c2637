// Numbers past their limits, and inputs that come twice.
use crate::edits::{Edit, print_edits};
use blocks::Block;
use std::alloc::Global;
use std::io;

const LIMITS: [Edit; 30] = [
    Edit("no adders, but ports of two", &[("adders=2", "adders=0")]),
    Edit("1 adder, but ports of two", &[("adders=2", "adders=1")]),
    Edit("3 adders, but ports of two", &[("adders=2", "adders=3")]),
    Edit("8 adders, but ports of two", &[("adders=2", "adders=8")]),
    Edit("9 adders", &[("adders=2", "adders=9")]),
    Edit("99 adders", &[("adders=2", "adders=99")]),
    Edit(
        "9 adders before a width of 0",
        &[("adders=2", "adders=9"), ("width=16", "width=0")],
    ),
    Edit("a width of 0", &[("width=16", "width=0")]),
    Edit("a width of 1", &[("width=16", "width=1")]),
    Edit("a width of 32", &[("width=16", "width=32")]),
    Edit("a width of 33", &[("width=16", "width=33")]),
    Edit("a width of 99", &[("width=16", "width=99")]),
    Edit("the left of adder 1 reads itself", &[("1L=0.0", "1L=1.0")]),
    Edit(
        "the right of adder 1 reads itself",
        &[("0.2 0.1", "0.2 1.1")],
    ),
    Edit("the left of adder 2 reads itself", &[("2L=1.0", "2L=2.0")]),
    Edit(
        "the right of adder 2 reads itself",
        &[("1.3 0.4", "1.3 2.4")],
    ),
    Edit("adder 1 reads adder 2", &[("1L=0.0", "1L=2.0")]),
    Edit("the output reads adder 3", &[("out=2.0", "out=3.0")]),
    Edit("the output reads adder 99", &[("out=2.0", "out=99.0")]),
    Edit("a shift of 31 at a left", &[("1L=0.0", "1L=0.31")]),
    Edit("a shift of 31 at a right", &[("0.2 0.1", "0.2 0.31")]),
    Edit("a shift of 31 at the output", &[("out=2.0", "out=2.31")]),
    Edit("a shift of 99", &[("1.3 0.4", "1.3 0.99")]),
    Edit(
        "a shift of 31 before a broken form",
        &[("0.2 0.1", "0.31 0.1 ")],
    ),
    Edit("an input twice", &[("0.2 0.1", "0.2 0.2")]),
    Edit(
        "the first of three inputs again",
        &[("0.2 0.1", "0.2 0.1 0.2")],
    ),
    Edit(
        "an input of the output twice",
        &[("out=2.0", "out=2.0 2.0")],
    ),
    Edit(
        "an input twice before a source not allowed",
        &[("0.2 0.1", "0.2 0.2 1.1")],
    ),
    Edit(
        "an input twice before a broken form",
        &[("0.2 0.1", "0.2 0.2 0")],
    ),
    Edit(
        "an input twice, not selected at all",
        &[("1L=0.0", "1L=0.0 0.5 0.5")],
    ),
];

pub fn print_all(rt: &impl Print, heap: Global, before: &Block) -> io::Result<()> {
    print_edits(rt, heap, before, &LIMITS)
}

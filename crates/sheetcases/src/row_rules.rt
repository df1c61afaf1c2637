// Rows that name an absent input or break a rule.
use crate::edits::{Edit, print_edits};
use blocks::Block;
use std::alloc::Global;
use std::io;

const ROW_RULES: [Edit; 28] = [
    Edit("a left number past the last", &[("s01=0+1", "s01=1+1")]),
    Edit("a right number past the last", &[("s01=0+1", "s01=0+2")]),
    Edit(
        "adder 2's left number past the last",
        &[("0+1 0+1 0", "0+1 1+1 0")],
    ),
    Edit(
        "adder 2's right number past the last",
        &[("0+1 0+1 0", "0+1 0+2 0")],
    ),
    Edit(
        "the output's number past the last",
        &[("0+1 0+1 0", "0+1 0+1 1")],
    ),
    Edit("the largest number", &[("s00=0+0", "s00=99+0")]),
    Edit("a left without inputs", &[("1L=0.0", "1L=")]),
    Edit("a right without inputs", &[("1R=0.2 0.1", "1R=")]),
    Edit("adder 2's left without inputs", &[("2L=1.0", "2L=")]),
    Edit("an output without inputs", &[("out=2.0", "out=")]),
    Edit(
        "an absent input before a value",
        &[("0+1 0+1 0", "0-1 0+1 1")],
    ),
    Edit(
        "a row's form before an absent input",
        &[("s01=0+1 0+1 0", "s01=1+1 0+1")],
    ),
    Edit(
        "an absent input before a later line's form",
        &[("s00=0+0", "s00=1+0"), ("s01=", "s1=")],
    ),
    Edit("a difference below 0", &[("0+1 0+1 0", "0-1 0+1 0")]),
    Edit(
        "a difference of 0",
        &[("0.2 0.1", "0.2 0.0"), ("s01=0+1", "s01=0-1")],
    ),
    Edit(
        "adder 2's difference below 0",
        &[("0+1 0+1 0", "0+1 0-1 0")],
    ),
    Edit(
        "a difference below 0 in the first row",
        &[("s00=0+0", "s00=0-0")],
    ),
    Edit("a right operand too large", &[("1.3 0.4", "1.3 1.30")]),
    Edit(
        "the first adder out of range",
        &[("1.3 0.4", "1.3 1.30"), ("s01=0+1", "s01=0-1")],
    ),
    Edit(
        "an output too large",
        &[("out=2.0", "out=2.0 2.30"), ("0+1 0+1 0", "0+1 0+1 1")],
    ),
    Edit(
        "an adder before the output",
        &[("out=2.0", "out=2.0 2.30"), ("0+1 0+1 0", "0+1 0-1 1")],
    ),
    Edit(
        "a filled adder that is not read",
        &[("out=2.0", "out=2.0 1.0"), ("0+1 0+1 0", "0+1 0+1 1")],
    ),
    Edit(
        "two filled adders that are not read",
        &[("out=2.0", "out=2.0 0.0"), ("0+1 0+1 0", "0+1 0+1 1")],
    ),
    Edit(
        "an empty adder that another reads",
        &[("0+1 0+1 0", "- 0+1 0")],
    ),
    Edit(
        "an empty adder that the output reads",
        &[("0+1 0+1 0", "- - 0")],
    ),
    Edit(
        "an adder that only an empty one could read",
        &[("0+1 0+1 0", "0+1 - 0")],
    ),
    Edit(
        "an unread adder before an earlier value",
        &[("out=2.0", "out=2.0 1.0"), ("0+1 0+1 0", "0-1 0+1 1")],
    ),
    Edit(
        "a broken rule before a later line's form",
        &[("s00=0+0", "s00=0-0"), ("s01=", "s1=")],
    ),
];

pub fn print_all(rt: &impl Print, heap: Global, before: &Block) -> io::Result<()> {
    print_edits(rt, heap, before, &ROW_RULES)
}

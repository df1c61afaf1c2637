// Lines of codes that break their form or their order.
use crate::edits::{Edit, print_edits};
use blocks::Block;
use std::alloc::Global;
use std::io;

const ROW_FORMS: [Edit; 30] = [
    Edit("a zero before a left number", &[("s00=0+0", "s00=00+0")]),
    Edit("a zero before a right number", &[("s00=0+0", "s00=0+00")]),
    Edit(
        "a zero before the output's number",
        &[("0+0 0+0 0", "0+0 0+0 00")],
    ),
    Edit(
        "three digits in a number of a row",
        &[("s01=0+1", "s01=0+100")],
    ),
    Edit("a star for a plus", &[("s00=0+0", "s00=0*0")]),
    Edit("a space for a plus", &[("s00=0+0", "s00=0 0")]),
    Edit("no sign", &[("s00=0+0", "s00=00")]),
    Edit("two signs", &[("s00=0+0", "s00=0+-0")]),
    Edit("no left number", &[("s00=0+0", "s00=+0")]),
    Edit("no right number", &[("s00=0+0", "s00=0+")]),
    Edit("no space between adders", &[("s00=0+0 0+0", "s00=0+00+0")]),
    Edit(
        "two spaces between adders",
        &[("s00=0+0 0+0", "s00=0+0  0+0")],
    ),
    Edit(
        "no space before the output's number",
        &[("0+0 0+0 0", "0+0 0+00")],
    ),
    Edit("no output's number", &[("0+1 0+1 0", "0+1 0+1 ")]),
    Edit("an adder too few", &[("0+1 0+1 0", "0+1 0")]),
    Edit("an adder too many", &[("0+1 0+1 0", "0+1 0+1 0+1 0")]),
    Edit("a dash without its space", &[("0+1 0+1 0", "-0+1 0")]),
    Edit("two dashes for one", &[("0+1 0+1 0", "-- 0+1 0")]),
    Edit("codes out of order", &[("s00=", "s02=")]),
    Edit("a code twice", &[("s01=", "s00=")]),
    Edit("code 16", &[("s01=", "s16=")]),
    Edit("code 16 before another", &[("s00=", "s16=")]),
    Edit("code 99", &[("s01=", "s99=")]),
    Edit("a code of one digit", &[("s00=", "s0=")]),
    Edit("a last code of one digit", &[("s01=", "s1=")]),
    Edit("a code of three digits", &[("s01=", "s001=")]),
    Edit("a code with a letter", &[("s01=", "s0a=")]),
    Edit("a capital for a code", &[("s01=", "S01=")]),
    Edit("codes 0 and 15", &[("s01=", "s15=")]),
    Edit("codes 9 and 10", &[("s00=", "s09="), ("s01=", "s10=")]),
];

pub fn print_all(rt: &impl Print, heap: Global, before: &Block) -> io::Result<()> {
    print_edits(rt, heap, before, &ROW_FORMS)
}

// Lines of the adders, the width and the ports that break their form.
use crate::edits::{Edit, print_edits};
use blocks::Block;
use std::alloc::Global;
use std::io;

const PORT_FORMS: [Edit; 29] = [
    Edit(
        "a zero before the adder count",
        &[("adders=2", "adders=02")],
    ),
    Edit("a zero before the width", &[("width=16", "width=016")]),
    Edit("a zero before a source", &[("1L=0.0", "1L=00.0")]),
    Edit("a zero after a zero", &[("1L=0.0", "1L=0.00")]),
    Edit("a zero before a shift", &[("0.2 0.1", "0.2 0.01")]),
    Edit(
        "three digits in the adder count",
        &[("adders=2", "adders=100")],
    ),
    Edit("three digits in the width", &[("width=16", "width=100")]),
    Edit("three digits in a shift", &[("2L=1.0", "2L=1.100")]),
    Edit("three digits in a source", &[("2L=1.0", "2L=100.0")]),
    Edit(
        "a plus before the adder count",
        &[("adders=2", "adders=+2")],
    ),
    Edit("a minus before the width", &[("width=16", "width=-1")]),
    Edit("a minus before a shift", &[("1L=0.0", "1L=0.-0")]),
    Edit("a capital in a key", &[("adders=2", "Adders=2")]),
    Edit("a small letter for a port", &[("1L=0.0", "1l=0.0")]),
    Edit("a colon in a key", &[("width=16", "width:16")]),
    Edit("a space in a key", &[("width=16", "width =16")]),
    Edit("a space before the first key", &[("adders=2", " adders=2")]),
    Edit("a space before the first input", &[("1R=0.2", "1R= 0.2")]),
    Edit("no space between inputs", &[("0.2 0.1", "0.20.1")]),
    Edit("two spaces between inputs", &[("0.2 0.1", "0.2  0.1")]),
    Edit("a tab between inputs", &[("0.2 0.1", "0.2\t0.1")]),
    Edit("a comma between inputs", &[("1.3 0.4", "1.3,0.4")]),
    Edit("a space after the last input", &[("1.3 0.4", "1.3 0.4 ")]),
    Edit("an input without its dot", &[("2L=1.0", "2L=10")]),
    Edit("an input without its shift", &[("2L=1.0", "2L=1.")]),
    Edit("an input without its source", &[("2L=1.0", "2L=.0")]),
    Edit("a nul at the end of a line", &[("out=2.0", "out=2.0\0")]),
    Edit("bytes above 127 in a line", &[("out=2.0", "out=2.0\u{e9}")]),
    Edit(
        "a carriage return for a line feed",
        &[("out=2.0\n", "out=2.0\r")],
    ),
];

pub fn print_all(rt: &impl Print, heap: Global, before: &Block) -> io::Result<()> {
    print_edits(rt, heap, before, &PORT_FORMS)
}

// Sheets that are written out.
use crate::outcome::print;
use blocks::Block;
use std::io;

// A difference, at an adder that no other adder reads.
pub const MINUS: &str = "adders=2\nwidth=16\n1L=0.3\n1R=0.0\n2L=\n2R=\nout=1.0\ns03=0-0 - 0\n";

// Each adder doubles the one below it.
pub const EIGHT_ADDERS: &str =
    "adders=8\nwidth=16\n1L=0.0\n1R=0.0\n2L=1.0\n2R=1.0\n3L=2.0\n3R=2.0\n4L=3.0\n4R=3.0\n5L=4.0\n5R=4.0\n6L=5.0\n6R=5.0\n7L=6.0\n7R=6.0\n8L=7.0\n8R=7.0\nout=8.0\ns00=0+0 0+0 0+0 0+0 0+0 0+0 0+0 0+0 0\n";

// A label and a sheet.
#[derive(Clone, Copy)]
struct Whole(&'static str, &'static str);

const WHOLE: [Whole; 19] = [
    Whole("empty", ""),
    Whole("a line feed alone", "\n"),
    Whole("a place that is not founded", "adders=0\nwidth=1\nout=\n"),
    Whole(
        "two adders and no code",
        "adders=2\nwidth=16\n1L=\n1R=\n2L=\n2R=\nout=\n",
    ),
    Whole("no adders and an input", "adders=0\nwidth=1\nout=0.0\n"),
    Whole(
        "no adders and a code",
        "adders=0\nwidth=32\nout=0.30\ns15=0\n",
    ),
    Whole(
        "no adders and an output that reads one",
        "adders=0\nwidth=1\nout=1.0\ns00=0\n",
    ),
    Whole(
        "no adders and an input that is absent",
        "adders=0\nwidth=1\nout=\ns00=0\n",
    ),
    Whole(
        "no adders and an entry",
        "adders=0\nwidth=1\nout=0.0\ns00=- 0\n",
    ),
    Whole(
        "the largest value",
        "adders=2\nwidth=16\n1L=0.30\n1R=0.0\n2L=1.0\n2R=0.30\nout=2.0\ns00=0-0 0+0 0\n",
    ),
    Whole(
        "one past the largest value",
        "adders=1\nwidth=16\n1L=0.30\n1R=0.30\nout=1.0\ns00=0+0 0\n",
    ),
    Whole(
        "an output of half of it",
        "adders=1\nwidth=16\n1L=0.0\n1R=0.0\nout=1.29\ns00=0+0 0\n",
    ),
    Whole(
        "an output one past it",
        "adders=1\nwidth=16\n1L=0.0\n1R=0.0\nout=1.30\ns00=0+0 0\n",
    ),
    Whole(
        "operands too large, but not their difference",
        "adders=2\nwidth=16\n1L=0.0\n1R=0.1\n2L=1.30\n2R=1.29\nout=2.0\ns00=0+0 0-0 0\n",
    ),
    Whole(
        "a lower adder in place of an empty one",
        "adders=3\nwidth=8\n1L=0.0\n1R=0.1\n2L=\n2R=\n3L=1.0\n3R=1.1\nout=3.0\ns04=0+0 - 0+0 0\n",
    ),
    Whole("a minus and an unused adder", MINUS),
    Whole("eight adders", EIGHT_ADDERS),
    Whole(
        "sixteen codes",
        "adders=0\nwidth=1\nout=0.0\ns00=0\ns01=0\ns02=0\ns03=0\ns04=0\ns05=0\ns06=0\ns07=0\ns08=0\ns09=0\ns10=0\ns11=0\ns12=0\ns13=0\ns14=0\ns15=0\n",
    ),
    Whole(
        "seventeen codes",
        "adders=0\nwidth=1\nout=0.0\ns00=0\ns01=0\ns02=0\ns03=0\ns04=0\ns05=0\ns06=0\ns07=0\ns08=0\ns09=0\ns10=0\ns11=0\ns12=0\ns13=0\ns14=0\ns15=0\ns16=0\n",
    ),
];

pub fn print_all(rt: &impl Print, before: &Block) -> io::Result<()> {
    for Whole(label, sheet) in &WHOLE {
        print(rt, before, *label, sheet.as_bytes())?;
    }
    Ok(())
}

// Blocks that are shaped to show one rule each.
use crate::outcome;
use std::io;

const CASES: [(&str, &str); 17] = [
    ("nothing is live", "adders=0\nwidth=1\nout=\n"),
    (
        "adders that no row uses",
        "adders=3\nwidth=8\n1L=\n1R=\n2L=\n2R=\n3L=\n3R=\nout=0.0\ns04=- - - 0\n",
    ),
    (
        "the sample alone at sixteen shifts",
        "adders=0\nwidth=32\nout=0.15 0.16 0.17 0.18 0.19 0.20 0.21 0.22 0.23 0.24 0.25 0.26 0.27 0.28 0.29 0.30\ns00=0\ns01=1\ns02=2\ns03=3\ns04=4\ns05=5\ns06=6\ns07=7\ns08=8\ns09=9\ns10=10\ns11=11\ns12=12\ns13=13\ns14=14\ns15=15\n",
    ),
    (
        "the sample alone at one shift",
        "adders=0\nwidth=1\nout=0.0\ns00=0\ns01=0\ns02=0\ns03=0\ns04=0\ns05=0\ns06=0\ns07=0\ns08=0\ns09=0\ns10=0\ns11=0\ns12=0\ns13=0\ns14=0\ns15=0\n",
    ),
    (
        "the largest value at width 32",
        "adders=1\nwidth=32\n1L=0.30\n1R=0.0 0.29\nout=1.0 1.1\ns00=0-0 1\ns01=0+1 0\n",
    ),
    (
        "a sum of 2 at width 1",
        "adders=1\nwidth=1\n1L=0.0\n1R=0.0\nout=1.0\ns00=0+0 0\n",
    ),
    (
        "an adder that adds alone",
        "adders=1\nwidth=16\n1L=0.0 0.1\n1R=0.2 0.3\nout=1.0\ns00=0+0 0\ns01=1+1 0\n",
    ),
    (
        "an adder that subtracts alone",
        "adders=1\nwidth=16\n1L=0.3 0.4\n1R=0.0 0.1\nout=1.0\ns00=0-0 0\ns01=1-1 0\n",
    ),
    (
        "an adder that does both",
        "adders=1\nwidth=16\n1L=0.3\n1R=0.0\nout=1.0\ns00=0-0 0\ns01=0+0 0\n",
    ),
    (
        "a value that is a power of two",
        "adders=1\nwidth=4\n1L=0.2\n1R=0.2\nout=1.0\ns00=0+0 0\n",
    ),
    (
        "a value past a power of two",
        "adders=1\nwidth=4\n1L=0.3\n1R=0.0\nout=1.0\ns00=0+0 0\n",
    ),
    (
        "the left wider than the right",
        "adders=1\nwidth=10\n1L=0.19 0.20\n1R=0.0 0.1\nout=1.0\ns00=1+0 0\ns01=0+1 0\n",
    ),
    (
        "one input from two codes",
        "adders=2\nwidth=12\n1L=0.0\n1R=0.1\n2L=1.0\n2R=0.0\nout=1.0 1.2 2.0\ns00=0+0 0+0 2\ns01=0+0 - 0\ns02=0+0 - 1\n",
    ),
    (
        "the sources of one shift",
        "adders=3\nwidth=12\n1L=0.0\n1R=0.1\n2L=0.0\n2R=0.2\n3L=0.1 1.1 2.1\n3R=0.1\nout=3.0\ns00=0+0 - 1+0 0\ns01=- 0+0 2+0 0\ns02=- - 0+0 0\n",
    ),
    (
        "the worked block",
        "adders=2\nwidth=16\n1L=0.0\n1R=0.1 0.2\n2L=1.0\n2R=0.4 1.3\nout=2.0\ns00=0+1 0+1 0\ns01=0+0 0+0 0\n",
    ),
    (
        "6 and 10",
        "adders=1\nwidth=16\n1L=0.0 0.1\n1R=0.2\nout=1.0 1.1\ns00=1+0 0\ns01=0+0 1\n",
    ),
    (
        "6 and 10, moved",
        "adders=1\nwidth=16\n1L=0.1\n1R=0.2 0.3\nout=1.0\ns00=0+0 0\ns01=0+1 0\n",
    ),
];

pub fn print_all(rt: &impl Print) -> io::Result<()> {
    for (label, sheet) in &CASES {
        outcome::print(rt, label, sheet)?;
    }
    Ok(())
}

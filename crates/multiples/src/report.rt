// The multiples of a sample, and what is printed for it.
ghost use Rattle.std.specs.Prelude.{Some};
ghost use Rattle.rows.specs.Rows.{constant_of};
ghost use Rattle.multiples.specs.Reports.{MultiplesOf, multiples_bytes};

use arith::{Frame, Mod255, Mod257, Residue, Word};
use rows::Row;
use running::run;
use std::fmt;

// A row's multiple of a sample, as a word and by two moduli.
#[derive(Clone, Copy)]
pub struct Multiples {
    pub word: i64,
    pub mod255: u32,
    pub mod257: u32,
}

// The row's multiples of a sample, one arithmetic at a time.
pub fn apart(row: &Row, sample: i64) -> Multiples
    ensures { MultiplesOf (constant_of row.now) sample result }
{
    Multiples {
        word: run(row, Word::from(sample)).value,
        mod255: run(row, Residue::<Mod255>::from(sample)).number,
        mod257: run(row, Residue::<Mod257>::from(sample)).number,
    }
}

// The same by one run, on a frame of a word and a frame of two residues.
pub fn framed(row: &Row, sample: i64) -> Multiples
    ensures { MultiplesOf (constant_of row.now) sample result }
{
    let residues = Frame {
        left: Residue::<Mod255>::from(sample),
        right: Residue::<Mod257>::from(sample),
    };
    let x = Frame {
        left: Word::from(sample),
        right: residues,
    };
    let frame = run(row, x);
    Multiples {
        word: frame.left.value,
        mod255: frame.right.left.number,
        mod257: frame.right.right.number,
    }
}

// The lines for a sample.
#[derive(Clone, Copy)]
pub struct SampleReport {
    pub apart: Multiples,
    pub framed: Multiples,
}

impl SampleReport {
    pub fn new(row: &Row, sample: i64) -> SampleReport
        ensures apart { MultiplesOf (constant_of row.now) sample result.apart }
        ensures framed { MultiplesOf (constant_of row.now) sample result.framed }
    {
        SampleReport {
            apart: apart(row, sample),
            framed: framed(row, sample),
        }
    }
}

impl fmt::Display for SampleReport {
    ghost output = { λ r. Some (multiples_bytes r.apart r.framed) };

    fn fmt<W: fmt::Write>(&self, f: &mut fmt::Formatter<W>) -> fmt::Result {
        let SampleReport { apart, framed } = self;
        write!(
            f,
            "word={}\nmod255={}\nmod257={}\nframe={} {} {}",
            apart.word, apart.mod255, apart.mod257, framed.word, framed.mod255, framed.mod257,
        )
    }
}

// What reading a sheet over a block does, as it is printed.
use adders::Refusal;
use blocks::Block;
use std::{fmt, io};

pub const WORKED: &str =
    "adders=2\nwidth=16\n1L=0.0\n1R=0.2 0.1\n2L=1.0\n2R=1.3 0.4\nout=2.0\ns00=0+0 0+0 0\ns01=0+1 0+1 0\n";

#[derive(Clone, Copy)]
pub enum Outcome {
    Accepted(Block),
    Refused(Refusal),
    // turned down, but the block is not as it was
    Spoilt(Refusal),
}

impl Outcome {
    pub fn of(before: &Block, sheet: &[u8]) -> Outcome {
        let mut block = *before;
        match sheets::read(&mut block, sheet) {
            Ok(()) => Outcome::Accepted(block),
            Err(refusal) if same(&block, before) => Outcome::Refused(refusal),
            Err(refusal) => Outcome::Spoilt(refusal),
        }
    }

    // Turned down for the form of this line.
    pub fn breaks_form_at(self, line: usize) -> bool {
        matches!(self, Outcome::Refused(Refusal::SheetForm(at)) if at == line)
    }
}

// The two blocks have the same adder count, width and rows.
pub fn same(one: &Block, other: &Block) -> bool {
    let rows = (0..16usize).all(|code| match (one.row(code), other.row(code)) {
        (Ok(r), Ok(s)) => r.slots() == s.slots() && r.output() == s.output(),
        (Err(d), Err(e)) => d == e,
        _ => false,
    });
    one.adders() == other.adders() && one.width() == other.width() && rows
}

fn write_block<W: fmt::Write>(block: &Block, f: &mut fmt::Formatter<W>) -> fmt::Result {
    write!(f, "adders {}, width {}", block.adders(), block.width())?;
    for code in 0..16usize {
        if let Ok(constant) = block.constant(code) {
            write!(f, ", s{code:02}={constant}")?;
        }
    }
    Ok(())
}

fn write_refusal<W: fmt::Write>(refusal: Refusal, f: &mut fmt::Formatter<W>) -> fmt::Result {
    write!(f, "{} at line {}", refusal.number(), refusal.place())?;
    match refusal {
        Refusal::RowBroken(_line, rule) => {
            write!(f, ", {} at adder {}", rule.number(), rule.place())
        }
        _ => Ok(()),
    }
}

impl fmt::Display for Outcome {
    fn fmt<W: fmt::Write>(&self, f: &mut fmt::Formatter<W>) -> fmt::Result {
        match self {
            Outcome::Accepted(block) => write_block(block, f),
            Outcome::Refused(refusal) => write_refusal(*refusal, f),
            Outcome::Spoilt(refusal) => {
                write_refusal(*refusal, f)?;
                write!(f, ", and the block is spoilt")
            }
        }
    }
}

// The block of the worked sheet.
pub fn worked_block() -> Block {
    let mut block = Block::new();
    let _answer = sheets::read(&mut block, WORKED.as_bytes());
    block
}

// Prints a case by its label.
pub fn print(rt: &impl Print, before: &Block, label: &str, sheet: &[u8]) -> io::Result<()> {
    let outcome = Outcome::of(before, sheet);
    println!(rt; "{label}: {outcome}")
}

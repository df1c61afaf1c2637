// Reading the input, and printing what it is answered.
ghost use Rattle.std.specs.Prelude.{◌≡◌, Some};
ghost use Rattle.price.specs.Reports.{ListOf, BlockOf, input_line, Priced, bill_text, report_text};

use super::{Bill, Report};
use crate::parts::PartsReport;
use adders::{LineRefusal, Refusal};
use blocks::Block;
use forms::first_line;
use prices::{CountList, PerBitList};
use pricing::price;
use std::{fmt, io};
use units::read_units;

// The list of the unit prices that a line says.
fn list_of(line: &[u8]) -> Result<PerBitList, Refusal>
    ensures { ListOf line.now result }
{
    PerBitList::new(read_units(line)?)
}

// The block that a sheet says.
fn block_of(sheet: &[u8]) -> Result<Block, Refusal>
    ensures { BlockOf sheet.now result }
{
    let mut block = Block::new();
    sheets::read(&mut block, sheet)?;
    Ok(block)
}

// The line of the input that a refused sheet is about.
fn input_line(refusal: Refusal) -> usize
    ensures { result ≡ input_line refusal }
{
    match refusal {
        Refusal::SheetTooLong => 0,
        _ => refusal.place().saturating_add(1),
    }
}

impl Bill {
    // Of unit prices and a sheet.
    fn of(input: &[u8]) -> Result<Bill, LineRefusal>
        ensures { Priced input.now result }
    {
        let (line, sheet) = first_line(input);
        let list = match list_of(line) {
            Ok(list) => list,
            Err(refusal) => return Err(LineRefusal { refusal, line: 1 }),
        };
        match block_of(sheet) {
            Ok(block) => Ok(Bill { block, list }),
            Err(refusal) => {
                let line = input_line(refusal);
                Err(LineRefusal { refusal, line })
            }
        }
    }
}

// Without a line feed at the end.
impl fmt::Display for Bill {
    ghost output = { λ bill. Some (bill_text bill) };

    fn fmt<W: fmt::Write>(&self, f: &mut fmt::Formatter<W>) -> fmt::Result {
        let Bill { block, list } = *self;
        let count = price(&block, &CountList);
        let per_bit = price(&block, &list);
        write!(f, "{}count={count}\nprice={per_bit}", PartsReport { block })
    }
}

impl Report {
    // On the bytes of an input.
    pub fn on(input: &[u8]) -> Report
        ensures { Priced input.now result.answer }
    {
        Report {
            answer: Bill::of(input),
        }
    }
}

impl fmt::Display for Report {
    ghost output = { λ r. Some (report_text r.answer) };

    fn fmt<W: fmt::Write>(&self, f: &mut fmt::Formatter<W>) -> fmt::Result {
        match self.answer {
            Ok(bill) => write!(f, "{bill}"),
            Err(refusal) => write!(f, "{refusal}"),
        }
    }
}

// Prints the report on an input. It stands here since the kit cannot prove a `main` that holds a report, whose fields' types it does not name.
pub fn print_report(rt: &impl Print, input: &[u8]) -> io::Result<()> {
    rt.println(Report::on(input))
}

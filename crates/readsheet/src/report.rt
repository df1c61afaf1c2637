// What reading a sheet answers, as it is printed.
ghost use Rattle.std.specs.Prelude.{Some};
ghost use Rattle.readsheet.specs.Reports.{ReadAs, cause_text, report_text};

use crate::block::BlockReport;
use adders::Refusal;
use blocks::Block;
use std::{fmt, io};

// Why a sheet is turned down.
#[derive(Clone, Copy)]
struct CauseReport {
    refusal: Refusal,
}

// The number and the line, and of a row that breaks a rule the number and the place of the rule too.
impl fmt::Display for CauseReport {
    ghost output = { λ r. Some (cause_text r.refusal) };

    fn fmt<W: fmt::Write>(&self, f: &mut fmt::Formatter<W>) -> fmt::Result {
        let number = self.refusal.number();
        let line = self.refusal.place();
        write!(f, "fault={number}\nline={line}")?;
        match self.refusal {
            Refusal::RowBroken(_line, rule) => {
                write!(f, "\ncause={}\nplace={}", rule.number(), rule.place())
            }
            _ => Ok(()),
        }
    }
}

#[derive(Clone, Copy)]
pub struct Report {
    pub answer: Result<Block, Refusal>,
}

impl Report {
    // On the bytes of a sheet.
    pub fn on(sheet: &[u8]) -> Report
        ensures { ReadAs sheet.now result.answer }
    {
        let mut block = Block::new();
        let answer = match sheets::read(&mut block, sheet) {
            Ok(()) => Ok(block),
            Err(refusal) => Err(refusal),
        };
        Report { answer }
    }
}

// Without a line feed at the end.
impl fmt::Display for Report {
    ghost output = { λ r. Some (report_text r.answer) };

    fn fmt<W: fmt::Write>(&self, f: &mut fmt::Formatter<W>) -> fmt::Result {
        match self.answer {
            Ok(block) => write!(f, "{}", BlockReport { block }),
            Err(refusal) => write!(f, "{}", CauseReport { refusal }),
        }
    }
}

// Prints the report on the bytes of a sheet. It stands here since the kit cannot prove a `main` that holds a report, whose fields' types it does not name.
pub fn print_report(rt: &impl Print, sheet: &[u8]) -> io::Result<()> {
    rt.println(Report::on(sheet))
}

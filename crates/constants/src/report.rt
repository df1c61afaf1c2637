// What reading a chain line answers, as it is printed.
ghost use Rattle.std.specs.Prelude.{Some};
ghost use Rattle.chains.specs.Chains.{Reading};
ghost use Rattle.constants.specs.Reports.{report_text};

use adders::Refusal;
use chains::Chain;
use std::{fmt, io};

#[derive(Clone, Copy)]
pub struct Report {
    pub answer: Result<Chain, Refusal>,
}

impl Report {
    // On a line without its line feed.
    pub fn on(line: &[u8]) -> Report
        ensures { Reading line.now result.answer }
    {
        Report {
            answer: Chain::read(line),
        }
    }
}

// Without a line feed at the end.
impl fmt::Display for Report {
    ghost output = { λ r. Some (report_text r.answer) };

    fn fmt<W: fmt::Write>(&self, f: &mut fmt::Formatter<W>) -> fmt::Result {
        match self.answer {
            Ok(chain) => write!(f, "constant={}", chain.constant()),
            Err(refusal) => write!(f, "{refusal}"),
        }
    }
}

// Prints the report on a line. It stands here since the kit cannot prove a `main` that holds a report, whose fields' types it does not name.
pub fn print_report(rt: &impl Print, line: &[u8]) -> io::Result<()> {
    rt.println(Report::on(line))
}

// The report on a line.
ghost use Rattle.std.specs.Prelude.{◌≡◌, Some};
ghost use Rattle.replay.specs.Reports.{report_of, report_text};

use super::LineReport;
use history::Outcome;
use std::fmt;

impl LineReport {
    // On a line whose call was made.
    pub fn of(outcome: Outcome) -> LineReport
        ensures { result ≡ report_of outcome }
    {
        match outcome {
            Outcome::Done => LineReport::Done,
            Outcome::Priced(price) => LineReport::Priced(price),
            Outcome::Refused(refusal) => LineReport::Fault(refusal),
        }
    }
}

// Without a line feed at the end.
impl fmt::Display for LineReport {
    ghost output = { λ report. Some (report_text report) };

    fn fmt<W: fmt::Write>(&self, f: &mut fmt::Formatter<W>) -> fmt::Result {
        match *self {
            LineReport::Done => write!(f, "ok"),
            LineReport::Priced(price) => write!(f, "ok price={price}"),
            LineReport::Fault(refusal) => {
                write!(f, "fault={} place={}", refusal.number(), refusal.place())
            }
            LineReport::NoCall => write!(f, "unreadable"),
        }
    }
}

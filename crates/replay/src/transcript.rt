// What a script is answered.
ghost use Rattle.std.specs.Prelude.{◌≡◌, ◌≤◌, IfOk, length, take, map};
ghost use Rattle.replay.specs.Scripts.{calls_in, event};
ghost use Rattle.replay.specs.Reports.{reports_of, Made, Replays};

use crate::report::LineReport;
use crate::script::Script;
use calls::{Call, SuppliedList, Unread};
use history::{Outcome, apply_all};
use std::alloc::{AllocError, Global};
use std::io;

// A report for each line, and the length of the sheet.
#[derive(Drop)]
pub struct Transcript {
    reports: Vec<LineReport>,
    length: usize,
}

// Makes the calls and writes the sheet of the block that they leave, which has this length.
fn made(calls: &[Call<SuppliedList>], outcomes: &mut [Outcome], sheet: &mut [u8; 4096]) -> usize
    requires { length calls.now ≡ length outcomes.old }
    ensures made { Made (map event calls.now) outcomes.new (take result sheet.new) }
    ensures few { result ≤ 4096 }
{
    let Ok(block) = apply_all(calls, outcomes) else {
        unreachable!();
    };
    let Ok(length) = sheets::write(&block, sheet) else {
        unreachable!();
    };
    length
}

// Each line has its report: that of its call, in their order, or why it gives none.
fn reports_of(
    heap: Global,
    answers: &[Result<Call<SuppliedList>, Unread>],
    outcomes: &[Outcome],
) -> Result<Vec<LineReport>, AllocError>
    ensures { IfOk result (λ reports. reports.items ≡ reports_of answers.now outcomes.now) }
{
    let mut reports = Vec::new(heap);
    let mut left = outcomes;
    for answer in answers {
        let report = match answer {
            Ok(_) => match left.split_first() {
                Some((outcome, rest)) => {
                    left = rest;
                    LineReport::of(*outcome)
                }
                None => return Ok(reports),
            },
            Err(Unread::Unreadable) => LineReport::NoCall,
            Err(Unread::Refused(refusal)) => LineReport::Fault(*refusal),
        };
        reports.push(report)?;
    }
    Ok(reports)
}

impl Transcript {
    // Of a script, with the sheet at the front of what was lent for it.
    pub fn of(heap: Global, text: &[u8], sheet: &mut [u8; 4096]) -> Result<Transcript, AllocError>
        ensures answer { IfOk result (λ transcript. Replays text.now transcript.reports.items (take transcript.length sheet.new)) }
        ensures few { IfOk result (λ transcript. transcript.length ≤ 4096) }
    {
        let script = Script::read(heap, text)?;
        let mut outcomes = vec![in heap; Outcome::Done; script.calls.len()]?;
        let length = made(script.calls.as_slice(), outcomes.as_mut_slice(), sheet);
        let reports = reports_of(heap, script.answers.as_slice(), outcomes.as_slice())?;
        Ok(Transcript { reports, length })
    }

    // How long the sheet is.
    pub fn length(&self) -> usize
        ensures { result ≡ self.now.length }
    {
        self.length
    }

    // Prints the reports, a line each.
    pub fn print(&self, rt: &impl Print) -> io::Result<()> {
        for report in &self.reports {
            rt.println(*report)?;
        }
        Ok(())
    }
}

// What the generator answers.
ghost use Rattle.std.specs.Prelude.{◌≡◌, ◌≤◌, IfOk, length, map};
ghost use Rattle.prices.specs.Count.{count_adders, count_muxes};
ghost use Rattle.history.specs.Events.{event_of};
ghost use Rattle.fusegen.specs.Generated.{Made, Generated, first_fault, unless_fault, sheet_of};

use crate::script::Script;
use adders::{LineRefusal, Refusal};
use calls::{Call, read_width};
use forms::first_line;
use history::{Outcome, apply_all};
use prices::CountList;
use std::alloc::{AllocError, Global};

// The most bytes of an input.
const MOST_BYTES: usize = 4096;

// The line of the first chain.
const FIRST_CHAIN: usize = 2;

// The first call that is turned down, and else what ended the reading of lines.
fn first_fault(outcomes: &[Outcome], stop: Option<Refusal>) -> Option<LineRefusal>
    ensures { result ≡ first_fault 2 outcomes.now stop }
{
    for (place, outcome) in outcomes.iter().enumerate() {
        if let Outcome::Refused(refusal) = *outcome {
            let line = place + FIRST_CHAIN;
            return Some(LineRefusal { refusal, line });
        }
    }
    let line = outcomes.len() + FIRST_CHAIN;
    stop.map(|refusal| LineRefusal { refusal, line })
}

// What was turned down, or else the length of what was written.
fn unless_fault(fault: Option<LineRefusal>, length: usize) -> Result<usize, LineRefusal>
    ensures { result ≡ unless_fault fault length }
{
    fault.map_or(Ok(length), Err)
}

// Makes the calls of a script and writes the sheet of the block that they leave, which has its length.
fn made(
    calls: &[Call<CountList>],
    outcomes: &mut [Outcome],
    stop: Option<Refusal>,
    sheet: &mut [u8; 4096],
) -> Result<usize, LineRefusal>
    requires { length calls.now ≡ length outcomes.old }
    ensures answer { Made (map (event_of (λ _. count_adders) (λ _. count_muxes)) calls.now) stop (sheet_of sheet.new result) }
    ensures few { IfOk result (λ length. length ≤ 4096) }
{
    let Ok(block) = apply_all(calls, outcomes) else {
        unreachable!();
    };
    let Ok(length) = sheets::write(&block, sheet) else {
        unreachable!();
    };
    unless_fault(first_fault(outcomes, stop), length)
}

// The sheet of the block that an input says, with its length, or what is turned down and in which line.
pub fn generate(
    heap: Global,
    input: &[u8],
    sheet: &mut [u8; 4096],
) -> Result<Result<usize, LineRefusal>, AllocError>
    ensures answer { IfOk result (λ answer. Generated input.now (sheet_of sheet.new answer)) }
    ensures few { IfOk result (λ answer. IfOk answer (λ length. length ≤ 4096)) }
{
    if input.len() > MOST_BYTES {
        return Ok(Err(LineRefusal {
            refusal: Refusal::SheetTooLong,
            line: 0,
        }));
    }
    let (line, text) = first_line(input);
    match read_width(line) {
        Err(refusal) => Ok(Err(LineRefusal { refusal, line: 1 })),
        Ok(width) => {
            let script = Script::read(heap, text, width)?;
            let mut outcomes = vec![in heap; Outcome::Done; script.calls.len()]?;
            Ok(made(
                script.calls.as_slice(),
                outcomes.as_mut_slice(),
                script.stop,
                sheet,
            ))
        }
    }
}

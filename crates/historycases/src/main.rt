// Replays a list of calls, and prints each outcome, the sheet, and runs of what was read back.
#![tactic(auto)]

mod script;

use arith::Word;
use blocks::Block;
use history::{Outcome, Replayed, Samples, replay};
use script::{CALLS, script};
use std::{io, str};

const INPUT: [Word; 3] = [Word { value: 1 }, Word { value: -2 }, Word { value: 7 }];

fn print_outcome(rt: &HostRuntime, outcome: Outcome, number: usize) -> io::Result<()> {
    match outcome {
        Outcome::Done => rt.println("done"),
        Outcome::Priced(price) => println!(rt; "price={price}"),
        Outcome::Refused(refusal) => rt.println(refusal.at_line(number)),
    }
}

fn print_runs(rt: &HostRuntime, told: &Replayed<Word>, output: &[Word]) -> io::Result<()> {
    match told.sample {
        Ok(word) => println!(rt; "sample {}", word.value)?,
        Err(refusal) => println!(rt; "sample fault={}", refusal.number())?,
    }
    if let Err(refusal) = told.buffer {
        println!(rt; "buffer fault={}", refusal.number())?;
    }
    for word in output {
        println!(rt; "output {}", word.value)?;
    }
    Ok(())
}

// Replays the calls and runs a code.
fn print_replay(rt: &HostRuntime, code: usize, listed: bool) -> io::Result<()> {
    let Ok(calls) = script() else {
        return rt.println("no script");
    };
    let mut outcomes = [Outcome::Done; CALLS];
    let mut sheet = [0u8; 4096];
    let mut place = Block::new();
    let mut output = [Word { value: 0 }; 3];
    let samples = Samples {
        code,
        sample: Word { value: -5 },
        buffer: &INPUT,
    };
    let told = match replay(
        &calls,
        &mut outcomes,
        &mut sheet,
        &mut place,
        &samples,
        &mut output,
    ) {
        Ok(told) => told,
        Err(refusal) => return println!(rt; "fault={}", refusal.number()),
    };
    if listed {
        for (i, outcome) in outcomes.iter().enumerate() {
            print_outcome(rt, *outcome, i + 1)?;
        }
        let text = sheet
            .get(..told.length)
            .and_then(|text| str::from_utf8(text).ok());
        rt.println(text.unwrap_or("no text"))?;
    }
    print_runs(rt, &told, &output)
}

fn main(rt: HostRuntime) -> io::Result<()> {
    print_replay(&rt, 0, true)?;
    print_replay(&rt, 1, false)?;
    print_replay(&rt, 2, false)?;
    print_replay(&rt, 16, false)
}

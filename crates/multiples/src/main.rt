// Reads a chain line and then samples from standard input, and prints the chain's multiple of each sample on words, residues and frames.
#![tactic(auto)]

mod report;

use adders::Refusal;
use chains::Chain;
use integers::read_integer;
use report::SampleReport;
use rows::Row;
use std::io;
use std::io::{BufRead, BufReader};

fn main(rt: HostRuntime) -> io::Result<()> {
    let heap = rt.alloc();
    let mut lines = BufReader::new(heap, rt.stdin())?.split(heap, b'\n');
    // a line that is missing breaks its form where it would begin
    let missing = Refusal::BrokenForm(0);
    let line = lines.next().transpose()?;
    let chain = match line.map_or(Err(missing), |line| Chain::read(line.as_slice())) {
        Ok(chain) => chain,
        Err(refusal) => return rt.println(refusal.at_line(1)),
    };
    println!(rt; "constant={}", chain.constant())?;
    let row = Row::from(chain);
    for (line, number) in lines.zip(2..) {
        match read_integer(line?.as_slice()) {
            Ok(sample) => rt.println(SampleReport::new(&row, sample))?,
            Err(error) => rt.println(Refusal::from(error).at_line(number))?,
        }
    }
    Ok(())
}

// Reads a chain line, a code, an adder, an amount and then samples from standard input. Founds the chain at the code, moves the adder's shifts by the amount, and prints the product of each sample before and after.
#![tactic(auto)]

mod report;
mod trial;

use adders::Refusal;
use chains::Chain;
use integers::read_integer;
use report::{ProductReport, line_of, number_from};
use std::io;
use std::io::{BufRead, BufReader};
use trial::Trial;

fn main(rt: HostRuntime) -> io::Result<()> {
    let heap = rt.alloc();
    let mut lines = BufReader::new(heap, rt.stdin())?.split(heap, b'\n');
    // a line that is missing breaks its form where it would begin
    let missing = Refusal::BrokenForm(0);
    let line = lines.next().transpose()?;
    let chain = match line.map_or(Err(missing), |line| Chain::read(line.as_slice())) {
        Ok(chain) => chain,
        Err(refusal) => return rt.println(refusal.at_line(1)),
    };
    let mut numbers = [0i64; 3];
    for (i, number) in numbers.iter_mut().enumerate() {
        let line = lines.next().transpose()?;
        let read = line.map_or(Err(missing), |line| Ok(read_integer(line.as_slice())?));
        match read {
            Ok(n) => *number = n,
            Err(refusal) => return rt.println(refusal.at_line(i + 2)),
        }
    }
    let [code, adder, amount] = numbers;
    let trial = match Trial::new(&chain, number_from(code), number_from(adder), amount) {
        Ok(trial) => trial,
        Err(refusal) => return rt.println(refusal.at_line(line_of(refusal))),
    };
    println!(rt; "constant={}", chain.constant())?;
    if let Err(refusal) = trial.outcome() {
        rt.println(refusal.at_line(line_of(refusal)))?;
    }
    for (line, number) in lines.zip(5..) {
        match read_integer(line?.as_slice()) {
            Ok(sample) => rt.println(trial.products(sample))?,
            Err(error) => rt.println(Refusal::from(error).at_line(number))?,
        }
    }
    Ok(())
}

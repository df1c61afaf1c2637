// Does one task as often as its input says, and prints what it came to: for whoever measures what one time takes.
#![tactic(auto)]

mod material;
mod tasks;

use adders::LineRefusal;
use forms::first_line;
use integers::NineDigits;
use std::io;
use std::io::Read;
use tasks::{fuse_again, read_again, run_again, write_again};

// How often, where the line asks for this task.
fn rounds(line: &[u8], task: &[u8]) -> Option<u32> {
    forms::read::<NineDigits>(line.strip_prefix(task)?).ok()
}

fn main(rt: HostRuntime) -> io::Result<()> {
    let heap = rt.alloc();
    let mut input = Vec::new(heap);
    rt.stdin().read_to_end(&mut input)?;
    let (line, material) = first_line(input.as_slice());
    if let Some(rounds) = rounds(line, b"fuse ") {
        return match fuse_again(heap, material, rounds)? {
            Ok(price) => println!(rt; "price={price}"),
            Err(refusal) => rt.println(refusal),
        };
    }
    if let Some(rounds) = rounds(line, b"run ") {
        return match run_again(heap, material, rounds)? {
            Ok(digest) => println!(rt; "digest={digest}"),
            Err(refusal) => rt.println(refusal),
        };
    }
    if let Some(rounds) = rounds(line, b"read ") {
        return match read_again(material, rounds) {
            Ok(sum) => println!(rt; "sum={sum}"),
            Err(refusal) => rt.println(refusal),
        };
    }
    if let Some(rounds) = rounds(line, b"write ") {
        return match write_again(material, rounds) {
            Ok(length) => println!(rt; "length={length}"),
            Err(refusal) => rt.println(refusal),
        };
    }
    rt.println("unreadable")
}

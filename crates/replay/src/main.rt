// Reads a script of calls from standard input, makes them in turn on a place not yet founded, and prints what each line is answered, and then the wiring sheet of the block that is left.
#![tactic(auto)]

mod report;
mod script;
mod transcript;

use std::io;
use std::io::{Read, Write};
use transcript::Transcript;

fn main(rt: HostRuntime) -> io::Result<()> {
    let heap = rt.alloc();
    let mut input = Vec::new(heap);
    rt.stdin().read_to_end(&mut input)?;
    let mut sheet = [0; 4096];
    let transcript = Transcript::of(heap, input.as_slice(), &mut sheet)?;
    transcript.print(&rt)?;
    rt.println("sheet")?;
    rt.stdout().write_all(&sheet[..transcript.length()])
}

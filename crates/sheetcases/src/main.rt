// Reads damaged and whole sheets over a block, writes blocks, and prints for each case what is answered.
#![tactic(auto)]

mod damage;
mod each_line;
mod edits;
mod inputs;
mod limits;
mod outcome;
mod port_forms;
mod row_forms;
mod row_rules;
mod selected;
mod sizes;
mod whole;
mod writes;

use blocks::Block;
use std::io;

fn main(rt: HostRuntime) -> io::Result<()> {
    let heap = rt.alloc();
    let before = outcome::worked_block();
    outcome::print(
        &rt,
        &Block::new(),
        "the worked sheet",
        outcome::WORKED.as_bytes(),
    )?;
    each_line::print_all(&rt, heap, &before)?;
    port_forms::print_all(&rt, heap, &before)?;
    row_forms::print_all(&rt, heap, &before)?;
    limits::print_all(&rt, heap, &before)?;
    row_rules::print_all(&rt, heap, &before)?;
    selected::print_all(&rt, heap, &before)?;
    whole::print_all(&rt, &before)?;
    inputs::print_all(&rt, heap, &before)?;
    sizes::print_all(&rt, heap, &before)?;
    writes::print_all(&rt, heap)
}

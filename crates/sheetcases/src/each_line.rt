// Each line of the worked sheet damaged in turn, in every way.
use crate::damage::Damage;
use crate::outcome;
use blocks::Block;
use std::alloc::Global;
use std::io;

pub fn print_all(rt: &impl Print, heap: Global, before: &Block) -> io::Result<()> {
    for damage in &Damage::ALL {
        for line in 1..10usize {
            let label = format!(in heap; "line {line} {damage}")?;
            let sheet = damage.at(heap, line)?;
            outcome::print(rt, before, label.as_str(), sheet.as_bytes())?;
        }
    }
    Ok(())
}

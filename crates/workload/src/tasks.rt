// The tasks, each done so many times.
use crate::material::{Coefficients, Filter, noise};
use adders::{LineRefusal, Refusal};
use arith::Word;
use blocks::Block;
use chains::Chain;
use fusing::fuse;
use prices::CountList;
use running::run_all;
use std::alloc::Global;
use std::io;

// What the block costs that the chains leave: the first is founded, the others are fused.
fn fused(width: usize, chains: &[Chain]) -> Result<u32, Refusal> {
    let mut block = Block::new();
    let mut price = 0;
    for (code, chain) in chains.iter().enumerate() {
        if code == 0 {
            block.found(chain, code, width)?;
        } else {
            price = fuse(&mut block, chain, code, &CountList)?;
        }
    }
    Ok(price)
}

// Fuses a generator's chains, and answers what the block costs under the count list.
pub fn fuse_again(heap: Global, text: &[u8], rounds: u32) -> io::Result<Result<u32, LineRefusal>> {
    let material = match Coefficients::read(heap, text)? {
        Ok(material) => material,
        Err(refusal) => return Ok(Err(refusal)),
    };
    let mut price = 0;
    for _round in 0..rounds {
        match fused(material.width, material.chains.as_slice()) {
            Ok(answer) => price = answer,
            Err(refusal) => return Ok(Err(refusal.at_line(0))),
        }
    }
    Ok(Ok(price))
}

// What one round leaves in the output, of which each round looks at another place.
fn digest(output: &[Word], round: usize) -> i64 {
    let last = output.last().map_or(0, |sample| sample.value);
    let next = round
        .checked_rem(output.len())
        .and_then(|place| output.get(place));
    last.wrapping_add(next.map_or(0, |sample| sample.value))
}

// Runs a chain on a buffer of samples, and answers what the outputs sum to at two places a round.
pub fn run_again(heap: Global, text: &[u8], rounds: u32) -> io::Result<Result<u64, LineRefusal>> {
    let filter = match Filter::read(text) {
        Ok(filter) => filter,
        Err(refusal) => return Ok(Err(refusal)),
    };
    let input = noise(heap, filter.samples)?;
    let mut output = noise(heap, filter.samples)?;
    let mut sum = 0i64;
    for round in 0..rounds as usize {
        if let Err(refusal) = run_all(&filter.row, input.as_slice(), output.as_mut_slice()) {
            return Ok(Err(refusal.at_line(0)));
        }
        sum = sum.wrapping_add(digest(output.as_slice(), round));
    }
    Ok(Ok(sum.cast_unsigned()))
}

// Reads a sheet, and answers what the constants of its live codes sum to.
pub fn read_again(sheet: &[u8], rounds: u32) -> Result<u64, LineRefusal> {
    let mut block = Block::new();
    for _round in 0..rounds {
        if let Err(refusal) = sheets::read(&mut block, sheet) {
            return Err(refusal.at_line(0));
        }
    }
    let mut sum = 0;
    for code in 0..16usize {
        sum = u64::from(block.constant(code).unwrap_or(0)).saturating_add(sum);
    }
    Ok(sum)
}

// Writes the sheet of the block that a sheet says, and answers its length.
pub fn write_again(sheet: &[u8], rounds: u32) -> Result<usize, LineRefusal> {
    let mut block = Block::new();
    let mut buffer = [0; 4096];
    let mut length = 0;
    if let Err(refusal) = sheets::read(&mut block, sheet) {
        return Err(refusal.at_line(0));
    }
    for _round in 0..rounds {
        match sheets::write(&block, &mut buffer) {
            Ok(written) => length = written,
            Err(refusal) => return Err(refusal.at_line(0)),
        }
    }
    Ok(length)
}

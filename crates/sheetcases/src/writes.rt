// Blocks that are written, into buffers of any length, and read again.
use crate::inputs::{FALLING, sheet_of};
use crate::outcome::{WORKED, same, worked_block};
use crate::whole::{EIGHT_ADDERS, MINUS};
use adders::Refusal;
use blocks::Block;
use chains::Chain;
use std::alloc::Global;
use std::{io, str};

const MOST_BYTES: usize = 4096;

fn block_of(sheet: &str) -> Result<Block, Refusal> {
    let mut block = Block::new();
    sheets::read(&mut block, sheet.as_bytes())?;
    Ok(block)
}

// A chain is founded, an adder's shifts are moved, and the code is retired.
fn founded() -> Result<Block, Refusal> {
    let mut block = Block::new();
    block.found(&Chain::read(b"chain=0.0+0.2 1.3+1.4 1")?, 5, 16)?;
    Ok(block)
}

fn moved() -> Result<Block, Refusal> {
    let mut block = founded()?;
    block.move_shifts(5, 1, 1)?;
    Ok(block)
}

fn retired() -> Result<Block, Refusal> {
    let mut block = moved()?;
    block.retire(5)?;
    Ok(block)
}

// Prints whether a text reads as the block.
fn print_again(rt: &impl Print, label: &str, block: &Block, text: &str) -> io::Result<()> {
    let again = if block_of(text).is_ok_and(|read| same(&read, block)) {
        "the same block"
    } else {
        "not the same block"
    };
    println!(rt; "{label}, read again: {again}")
}

// Prints what is written for a block, and whether that reads again as the block.
fn print_block(rt: &impl Print, heap: Global, label: &str, block: &Block) -> io::Result<()> {
    let mut buffer = vec![in heap; 0u8; MOST_BYTES]?;
    let length = sheets::write(block, buffer.as_mut_slice()).unwrap_or(0);
    buffer.truncate(length);
    let text = str::from_utf8(buffer.as_slice()).unwrap_or("?");
    println!(rt; "{label}, written: {length} bytes, {text:?}")?;
    print_again(rt, label, block, text)
}

fn print_written(
    rt: &impl Print,
    heap: Global,
    label: &str,
    block: Result<Block, Refusal>,
) -> io::Result<()> {
    match block {
        Ok(block) => print_block(rt, heap, label, &block),
        Err(refusal) => println!(rt; "{label}: {}", refusal.number()),
    }
}

// Prints what writing the worked block into a buffer of so many # answers, and the whole buffer after it.
fn print_buffer(rt: &impl Print, heap: Global, label: &str, length: usize) -> io::Result<()> {
    let mut buffer = vec![in heap; b'#'; length]?;
    let answer = sheets::write(&worked_block(), buffer.as_mut_slice());
    let text = str::from_utf8(buffer.as_slice()).unwrap_or("?");
    match answer {
        Ok(bytes) => println!(rt; "a buffer of {label}: {bytes} bytes, {text:?}"),
        Err(refusal) => {
            let (number, place) = (refusal.number(), refusal.place());
            println!(rt; "a buffer of {label}: {number} at {place}, {text:?}")
        }
    }
}

// Prints whether a damaged sheet, read after the worked one, leaves the block.
fn print_kept(rt: &impl Print) -> io::Result<()> {
    let first = worked_block();
    let mut block = first;
    let damaged = WORKED.as_bytes().get(1..).unwrap_or(&[]);
    let number = sheets::read(&mut block, damaged).map_or_else(|refusal| refusal.number(), |()| 0);
    let kept = if same(&block, &first) {
        "as it was"
    } else {
        "spoilt"
    };
    println!(rt; "a damaged sheet after the worked one: {number}, and the block {kept}")
}

pub fn print_all(rt: &impl Print, heap: Global) -> io::Result<()> {
    print_block(rt, heap, "a new block", &Block::new())?;
    print_block(rt, heap, "the worked sheet", &worked_block())?;
    let falling = sheet_of(heap, &FALLING, "")?;
    print_written(
        rt,
        heap,
        "sixteen inputs, falling",
        block_of(falling.as_str()),
    )?;
    print_written(rt, heap, "a minus and an unused adder", block_of(MINUS))?;
    print_written(rt, heap, "eight adders", block_of(EIGHT_ADDERS))?;
    print_written(rt, heap, "a founded chain", founded())?;
    print_written(rt, heap, "its shifts moved", moved())?;
    print_written(rt, heap, "its code retired", retired())?;
    print_buffer(rt, heap, "90 bytes", 90)?;
    print_buffer(rt, heap, "100 bytes", 100)?;
    print_buffer(rt, heap, "89 bytes", 89)?;
    print_buffer(rt, heap, "1 byte", 1)?;
    print_buffer(rt, heap, "no bytes", 0)?;
    print_kept(rt)
}

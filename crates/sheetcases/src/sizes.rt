// Sheets with more at the end, of the most bytes, and with each byte damaged in turn.
use crate::outcome::{Outcome, WORKED, print};
use blocks::Block;
use std::alloc::{AllocError, Global};
use std::io;

const ENDS: [(&'static str, &'static str); 4] = [
    ("an empty line at the end", "\n"),
    ("a byte at the end", "x"),
    ("a space at the end", " "),
    ("a line at the end", "end\n"),
];

const LENGTHS: [(&'static str, &'static str, usize); 4] = [
    ("4096 bytes", WORKED, 4096),
    ("4097 bytes", WORKED, 4097),
    ("4096 bytes that break at once", "", 4096),
    ("4097 bytes that break at once", "", 4097),
];

// The text and then as many letters as make up a length.
fn filled(heap: Global, text: &str, length: usize) -> Result<String, AllocError> {
    let mut sheet = String::from_str(heap, text)?;
    for _ in text.len()..length {
        sheet.push('x')?;
    }
    Ok(sheet)
}

// The worked sheet, with a # at one place.
fn marked(heap: Global, place: usize) -> Result<Vec<u8>, AllocError> {
    let mut sheet = Vec::from_slice(heap, WORKED.as_bytes())?;
    if let Some(byte) = sheet.get_mut(place) {
        *byte = b'#';
    }
    Ok(sheet)
}

// Whether a sheet that is damaged at a place is told at the line of the place.
fn is_told(before: &Block, sheet: &[u8], place: usize) -> bool {
    let feeds = WORKED.bytes().take(place).filter(|byte| *byte == b'\n');
    Outcome::of(before, sheet).breaks_form_at(feeds.count().saturating_add(1))
}

// For how many places the sheet with a # there is told at its line.
fn marks_told(heap: Global, before: &Block) -> Result<usize, AllocError> {
    let mut told = 0usize;
    for place in 0..WORKED.len() {
        if is_told(before, marked(heap, place)?.as_slice(), place) {
            told = told.saturating_add(1);
        }
    }
    Ok(told)
}

// For how many places the sheet that ends before it is told at its line.
fn cuts_told(before: &Block) -> usize {
    let sheet = WORKED.as_bytes();
    (0..sheet.len())
        .filter(|place| is_told(before, sheet.get(..*place).unwrap_or(&[]), *place))
        .count()
}

pub fn print_all(rt: &impl Print, heap: Global, before: &Block) -> io::Result<()> {
    for (label, end) in &ENDS {
        let sheet = format!(in heap; "{WORKED}{end}")?;
        print(rt, before, *label, sheet.as_bytes())?;
    }
    for (label, text, length) in &LENGTHS {
        print(rt, before, *label, filled(heap, *text, *length)?.as_bytes())?;
    }
    let all = WORKED.len();
    let marks = marks_told(heap, before)?;
    println!(rt; "a # for a byte: {marks} of {all} are told at their line")?;
    let cuts = cuts_told(before);
    println!(rt; "cut after so many bytes: {cuts} of {all} are told at their line")
}

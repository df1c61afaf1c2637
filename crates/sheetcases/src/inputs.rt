// A port line with many inputs, each of which a code selects.
use crate::outcome::print;
use blocks::Block;
use std::alloc::{AllocError, Global};
use std::io;

// A sheet of one adder, where the right has these shifts of the sample and code c selects input c; the end of that line may have more.
pub fn sheet_of(heap: Global, shifts: &[u8], end: &str) -> Result<String, AllocError> {
    let mut sheet = String::from_str(heap, "adders=1\nwidth=16\n1L=0.0\n1R=")?;
    for (place, shift) in shifts.iter().enumerate() {
        let space = if place == 0 { "" } else { " " };
        write!(sheet, "{space}0.{shift}")?;
    }
    write!(sheet, "{end}\nout=1.0\n")?;
    for code in 0..16usize {
        write!(sheet, "s{code:02}=0+{code} 0\n")?;
    }
    Ok(sheet)
}

// Sixteen shifts that fall by one each.
pub const FALLING: [u8; 16] = [15, 14, 13, 12, 11, 10, 9, 8, 7, 6, 5, 4, 3, 2, 1, 0];

#[derive(Clone, Copy)]
struct Inputs(&'static str, &'static [u8]);

const INPUTS: [Inputs; 8] = [
    Inputs(
        "sixteen inputs",
        &[0, 1, 2, 3, 4, 5, 6, 7, 8, 9, 10, 11, 12, 13, 14, 15],
    ),
    Inputs("sixteen inputs, falling", &FALLING),
    Inputs(
        "fifteen inputs",
        &[0, 1, 2, 3, 4, 5, 6, 7, 8, 9, 10, 11, 12, 13, 14],
    ),
    Inputs(
        "seventeen inputs",
        &[0, 1, 2, 3, 4, 5, 6, 7, 8, 9, 10, 11, 12, 13, 14, 15, 16],
    ),
    Inputs(
        "seventeen inputs, of which one comes twice",
        &[0, 1, 2, 3, 4, 5, 6, 7, 8, 9, 10, 11, 12, 13, 14, 15, 0],
    ),
    Inputs(
        "the first input again at once",
        &[0, 0, 2, 3, 4, 5, 6, 7, 8, 9, 10, 11, 12, 13, 14, 15],
    ),
    Inputs(
        "the first input again at the end",
        &[0, 1, 2, 3, 4, 5, 6, 7, 8, 9, 10, 11, 12, 13, 14, 0],
    ),
    Inputs(
        "the last input at the last two places",
        &[0, 1, 2, 3, 4, 5, 6, 7, 8, 9, 10, 11, 12, 13, 14, 14],
    ),
];

pub fn print_all(rt: &impl Print, heap: Global, before: &Block) -> io::Result<()> {
    for Inputs(label, shifts) in &INPUTS {
        print(rt, before, *label, sheet_of(heap, *shifts, "")?.as_bytes())?;
    }
    let same = sheet_of(heap, &[3; 16], "")?;
    print(rt, before, "sixteen times one input", same.as_bytes())?;
    let many = sheet_of(heap, &[3; 272], "")?;
    print(rt, before, "272 times one input", many.as_bytes())?;
    let seventeen = sheet_of(heap, &[3; 17], " ")?;
    print(
        rt,
        before,
        "seventeen inputs and then a space",
        seventeen.as_bytes(),
    )
}

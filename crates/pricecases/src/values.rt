// How many bits values take.
use bits::bits;
use std::io;

const CASES: [u32; 41] = [
    0, 1, 2, 3, 4, 5, 6, 7, 8, 9, 10, 11, 12, 13, 14, 15, 16, 17, 31, 32, 33, 1023, 1024, 1025,
    65535, 65536, 65537, 1048575, 1048576, 1048577, 16777215, 16777216, 16777217, 1073741823,
    1073741824, 1073741825, 2147483646, 2147483647, 2147483648, 2147483649, 4294967295,
];

pub fn print_all(rt: &impl Print) -> io::Result<()> {
    for value in &CASES {
        println!(rt; "bits of {value}: {}", bits(*value))?;
    }
    Ok(())
}

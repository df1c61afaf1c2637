// Products that were worked out by hand, at the limits of the arithmetics.
ghost use Rattle.std.proofs.Common.{lit≤};

use arith::{Arithmetic, Mod255, Modulus, Residue, Word};
use chains::Chain;
use rows::Row;
use running::{run, run_all};

// The smallest modulus.
pub(crate) struct Mod2;

impl Modulus for Mod2 {
    const MODULUS: u32 = 2;

    ghost MODULUS = { 2 };

    ghost bounds = { record { least = lit≤ tt; most = lit≤ tt } };
}

// The largest.
pub(crate) struct Mod65536;

impl Modulus for Mod65536 {
    const MODULUS: u32 = 65536;

    ghost MODULUS = { 65536 };

    ghost bounds = { record { least = lit≤ tt; most = lit≤ tt } };
}

// The row of a chain line.
fn row(line: &[u8]) -> Option<Row> {
    Chain::read(line).ok().map(Row::from)
}

// 10,021 times a residue, by a subtraction too.
pub(crate) fn moduli_agree() -> bool {
    let Some(row) = row(b"chain=0.0+0.2 1.0+1.11 2.0+0.5 3.0-0.8 0") else {
        return false;
    };
    run(&row, Residue::<Mod2>::new(1)).number == 1
        && run(&row, Residue::<Mod2>::new(2)).number == 0
        && run(&row, Residue::<Mod65536>::new(65_535)).number == 55_515
        && run(&row, Residue::<Mod65536>::new(40_000)).number == 21_824
}

// A row without adders answers the remainder too.
pub(crate) fn unreduced_agree() -> bool {
    let Some(row) = row(b"chain=0") else {
        return false;
    };
    run(&row, Residue::<Mod255>::new(300)).number == 45
        && run(&row, Residue::<Mod255>::new(u32::MAX)).number == 0
        && Residue::<Mod255>::new(300).shifted(200).number == 45
}

pub(crate) fn shifts_agree() -> bool {
    let word = Word::from(-3);
    word.shifted(0).value == -3
        && word.shifted(30).value == -3_221_225_472
        && word.shifted(63).value == i64::MIN
        && word.shifted(64).value == 0
        && word.shifted(255).value == 0
}

pub(crate) fn buffers_agree() -> bool {
    let Some(row) = row(b"chain=0.0+0.1 1.0+0.4 0") else {
        return false;
    };
    let input = [-7, 0, 1].map(Word::from);
    let mut output = [Word::from(5); 3];
    run_all(&row, &input, &mut output).is_ok() && output == [-133, 0, 19].map(Word::from)
}

// The output stays as it was.
pub(crate) fn lengths_agree() -> bool {
    let Some(row) = row(b"chain=3") else {
        return false;
    };
    let input = [1, 2].map(Word::from);
    let mut output = [Word::from(5); 3];
    let Err(refusal) = run_all(&row, &input, &mut output) else {
        return false;
    };
    refusal.number() == 27 && refusal.place() == 0 && output == [Word::from(5); 3]
}

// What is printed for a sample, and how the numbers of the input are taken.
ghost use Rattle.std.specs.Prelude.{◌≡◌, Some};
ghost use Rattle.products.specs.Reports.{number_of, input_line, products_bytes};

use adders::Refusal;
use std::fmt;

// The products of a sample, before the move and after it.
#[derive(Clone, Copy)]
pub struct ProductReport {
    pub before: i64,
    pub after: i64,
}

impl fmt::Display for ProductReport {
    ghost output = { λ r. Some (products_bytes r.before r.after) };

    fn fmt<W: fmt::Write>(&self, f: &mut fmt::Formatter<W>) -> fmt::Result {
        let ProductReport { before, after } = self;
        write!(f, "before={before}\nafter={after}")
    }
}

// A code or an adder; below 0 there is none, as there is none of the largest number.
pub fn number_from(integer: i64) -> usize
    ensures { result ≡ number_of integer }
{
    usize::try_from(integer).unwrap_or(usize::MAX)
}

// The line of the input that a refused founding or move is about: the code's, the adder's, or else the amount's.
pub fn line_of(refusal: Refusal) -> usize
    ensures { result ≡ input_line refusal }
{
    match refusal {
        Refusal::CodeAboveFifteen | Refusal::CodeIdle => 2,
        Refusal::AdderUnused => 3,
        _ => 4,
    }
}

// The fixed bytes of a sheet, which its readers compare and its writer writes.

ghost use Rattle.std.specs.Prelude.{◌≡◌, ◌≤◌};
ghost use Rattle.texts.specs.Text.{code_key};

pub const ADDERS: &[u8] = b"adders=";

pub const WIDTH: &[u8] = b"width=";

pub const LEFT: &[u8] = b"L=";

pub const RIGHT: &[u8] = b"R=";

pub const OUTPUT: &[u8] = b"out=";

pub const SPACE: &[u8] = b" ";

pub const LINE_FEED: &[u8] = b"\n";

pub const DOT: &[u8] = b".";

pub const PLUS: &[u8] = b"+";

pub const MINUS: &[u8] = b"-";

// What stands before the number of a code.
pub const CODE: &[u8] = b"s";

// The same before a number of one digit.
pub const CODE_BELOW_TEN: &[u8] = b"s0";

pub const EQUALS: &[u8] = b"=";

// What stands for an adder that a row does not use.
pub const UNUSED: &[u8] = b"- ";

// The key of a code's line: s, the code's two digits, =.
#[tactic(auto, using(crate::proofs::Takes::code_key_is))]
pub fn of_code(code: usize) -> [u8; 4]
    ensures { code ≤ 99 → result ≡ code_key code }
{
    [
        b's',
        b'0' + (code / 10 % 10) as u8,
        b'0' + (code % 10) as u8,
        b'=',
    ]
}

// The automaton that reads a line, one byte at a time: where it stands, and what a byte leads to.
ghost use Rattle.std.specs.Prelude.{◌≡◌, None};
ghost use Rattle.std.specs.Option.{option_map};
ghost use Rattle.lines.specs.declared.scan.Move.TheVariants.{On};
ghost use Rattle.lines.specs.Scan.{symbol, push, value, closed, final, step, made, on_key};

use adders::{Adder, Operand, Sign};
use forms::Digit;

// What a byte is to the line.
#[derive(Clone, Copy)]
pub(crate) enum Symbol {
    Digit(Digit),
    Dot,
    Mark(Sign),
    Space,
}

// A number as far as it is read: nothing yet, one digit that may be followed by another, or all of it.
#[derive(Clone, Copy)]
pub(crate) enum Number {
    Empty,
    Open(Digit),
    Full(u8),
}

// What is read of an adder before the number at hand; nothing before its left source, and before the output shift.
#[derive(Clone, Copy)]
pub(crate) enum Front {
    Nothing,
    LeftSource(u8),
    Left(Operand, Sign),
    RightSource(Operand, Sign, u8),
}

// Where in the line the reader stands: after so many bytes of the key, or in a number.
#[derive(Clone, Copy)]
pub(crate) enum Part {
    Key(u8),
    Body(Front, Number),
}

// What one more byte leads to.
#[derive(Clone, Copy)]
pub(crate) enum Move {
    On(Part),
    Done(Adder),
}

const KEY: [u8; 6] = *b"chain=";

impl Symbol {
    fn of(byte: u8) -> Option<Symbol>
        ensures { result ≡ symbol byte }
    {
        match byte {
            b'.' => Some(Symbol::Dot),
            b'+' => Some(Symbol::Mark(Sign::Plus)),
            b'-' => Some(Symbol::Mark(Sign::Minus)),
            b' ' => Some(Symbol::Space),
            _ => Digit::of(byte).map(Symbol::Digit),
        }
    }
}

impl Number {
    // One digit more; a zero is a number of its own.
    fn push(self, digit: Digit) -> Option<Number>
        ensures { result ≡ push self digit }
    {
        match self {
            Number::Empty if digit.value() == 0 => Some(Number::Full(0)),
            Number::Empty => Some(Number::Open(digit)),
            Number::Open(tens) => Some(Number::Full(10 * tens.value() + digit.value())),
            Number::Full(_) => None,
        }
    }

    fn value(self) -> Option<u8>
        ensures { result ≡ value self }
    {
        match self {
            Number::Empty => None,
            Number::Open(digit) => Some(digit.value()),
            Number::Full(number) => Some(number),
        }
    }
}

impl Front {
    // What follows where the number after this front is `n` and `symbol` ends it.
    fn close(self, n: u8, symbol: Symbol) -> Option<Move>
        ensures { result ≡ closed self n symbol }
    {
        let next = match (self, symbol) {
            (Front::Nothing, Symbol::Dot) => Front::LeftSource(n),
            (Front::LeftSource(source), Symbol::Mark(sign)) => {
                Front::Left(Operand { source, shift: n }, sign)
            }
            (Front::Left(left, sign), Symbol::Dot) => Front::RightSource(left, sign, n),
            (Front::RightSource(left, sign, source), Symbol::Space) => {
                let right = Operand { source, shift: n };
                return Some(Move::Done(Adder { left, sign, right }));
            }
            _ => return None,
        };
        Some(Move::On(Part::Body(next, Number::Empty)))
    }
}

impl Part {
    // The output shift, where the line may end here.
    pub(crate) fn end(self) -> Option<u8>
        ensures { result ≡ final self }
    {
        match self {
            Part::Body(Front::Nothing, number) => number.value(),
            _ => None,
        }
    }

    // One byte more, in place: the adder that it makes whole, if it makes one; `None` where no line goes on so.
    pub(crate) fn advance(&mut self, byte: u8) -> Option<Option<Adder>>
        ensures step { made result self.new ≡ step self.old byte }
        ensures kept { result ≡ None → self.new ≡ self.old }
    {
        match self {
            Part::Key(k) => {
                *self = after_key(*k, byte)?;
                Some(None)
            }
            Part::Body(front, number) => match Symbol::of(byte)? {
                Symbol::Digit(digit) => {
                    *number = number.push(digit)?;
                    Some(None)
                }
                symbol => match front.close(number.value()?, symbol)? {
                    Move::On(part) => {
                        *self = part;
                        Some(None)
                    }
                    Move::Done(adder) => Some(Some(adder)),
                },
            },
        }
    }
}

// What follows behind a byte of the key.
fn after_key(k: u8, byte: u8) -> Option<Part>
    ensures { option_map (λ part. On part) result ≡ on_key k byte }
{
    if byte != *KEY.get(usize::from(k))? {
        return None;
    }
    let read = k + 1;
    Some(if usize::from(read) == KEY.len() {
        Part::Body(Front::Nothing, Number::Empty)
    } else {
        Part::Key(read)
    })
}

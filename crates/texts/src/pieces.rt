// Reading the pieces of a sheet: each answers what it read and the bytes after it.
ghost use Rattle.std.specs.Prelude.{◌≡◌, option_map};
ghost use Rattle.texts.specs.Steps.{read_of};
ghost use Rattle.texts.specs.Pieces.{skip, digit_at, number_at, operand_at, number_line_at, sign_at, selection_at, entry_at};

use crate::keys;
use crate::selection::Selection;
use adders::{Operand, Sign};
use forms::Digit;

// The bytes after a key.
pub fn skip<'a>(text: &'a [u8], key: &[u8]) -> Option<&'a [u8]>
    ensures { option_map (λ r. r.now) result ≡ skip key.now text.now }
{
    text.strip_prefix(key)
}

// One digit.
fn digit(text: &[u8]) -> Option<(u8, &[u8])>
    ensures { read_of result ≡ digit_at text.now }
{
    let (first, rest) = text.split_first()?;
    Some((Digit::of(*first)?.value(), rest))
}

// A number up to 99, as it is printed.
#[tactic(auto, unfolding(crate::specs::Pieces::number_at))]
pub fn number(text: &[u8]) -> Option<(u8, &[u8])>
    ensures { read_of result ≡ number_at text.now }
{
    let (first, rest) = digit(text)?;
    if first == 0 {
        return Some((0, rest));
    }
    match digit(rest) {
        Some((second, rest)) => Some((10 * first + second, rest)),
        None => Some((first, rest)),
    }
}

// An operand: source, dot, shift.
#[tactic(auto, unfolding(crate::specs::Pieces::operand_at))]
pub fn operand(text: &[u8]) -> Option<(Operand, &[u8])>
    ensures { read_of result ≡ operand_at text.now }
{
    let (source, rest) = number(text)?;
    let rest = skip(rest, keys::DOT)?;
    let (shift, rest) = number(rest)?;
    Some((Operand { source, shift }, rest))
}

// The line of a key and a number.
#[tactic(auto, unfolding(crate::specs::Pieces::number_line_at))]
pub fn number_line<'a>(text: &'a [u8], key: &[u8]) -> Option<(u8, &'a [u8])>
    ensures { read_of result ≡ number_line_at key.now text.now }
{
    let (number, rest) = number(skip(text, key)?)?;
    let rest = skip(rest, keys::LINE_FEED)?;
    Some((number, rest))
}

fn sign(text: &[u8]) -> Option<(Sign, &[u8])>
    ensures { read_of result ≡ sign_at text.now }
{
    if let Some(rest) = skip(text, keys::PLUS) {
        return Some((Sign::Plus, rest));
    }
    let rest = skip(text, keys::MINUS)?;
    Some((Sign::Minus, rest))
}

// What a code selects at an adder that it uses.
#[tactic(auto, unfolding(crate::specs::Pieces::selection_at))]
fn selection(text: &[u8]) -> Option<(Selection, &[u8])>
    ensures { read_of result ≡ selection_at text.now }
{
    let (left, rest) = number(text)?;
    let (sign, rest) = sign(rest)?;
    let (right, rest) = number(rest)?;
    let rest = skip(rest, keys::SPACE)?;
    Some((Selection { left, sign, right }, rest))
}

// An adder in a code line, which the code may not use.
pub fn entry(text: &[u8]) -> Option<(Option<Selection>, &[u8])>
    ensures { read_of result ≡ entry_at text.now }
{
    if let Some(rest) = skip(text, keys::UNUSED) {
        return Some((None, rest));
    }
    let (selection, rest) = selection(text)?;
    Some((Some(selection), rest))
}

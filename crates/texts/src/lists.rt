// Reading the lists of a sheet: the inputs of a port, and what a code selects at each adder.
ghost use Rattle.std.specs.Prelude.{◌≡◌, List, None, option_map, ◌∷◌, ◌<◌, ◌≤◌};
ghost use Rattle.adders.specs.declared.wiring.Operand.{Operand};
ghost use Rattle.texts.specs.Steps.{read_of, Read};
ghost use Rattle.texts.specs.Pieces.{side_at, port_key_at, more_at, input_list_at, port_line_at, entries_at, selections_at};
ghost use Rattle.texts.specs.Listings.{with_room, as_selections};
ghost use Rattle.texts.specs.Listings.{ListingRead, with_first};

use crate::keys;
use crate::listing::Listing;
use crate::pieces::{entry, number, operand, skip};
use crate::selection::{Selection, Selections};
use adders::Operand;
use ports::Port;

const MOST_ADDERS: usize = 8;

// The number of an adder and the key of its left or right.
#[tactic(auto, unfolding(crate::specs::Pieces::side_at))]
fn side<'a>(text: &'a [u8], adder: usize, key: &[u8]) -> Option<&'a [u8]>
    ensures { option_map (λ r. r.now) result ≡ side_at adder key.now text.now }
{
    let (number, rest) = number(text)?;
    if number as usize != adder {
        return None;
    }
    skip(rest, key)
}

fn port_key(text: &[u8], port: Port) -> Option<&[u8]>
    ensures { option_map (λ r. r.now) result ≡ port_key_at port text.now }
{
    match port {
        Port::Left(adder) => side(text, adder, keys::LEFT),
        Port::Right(adder) => side(text, adder, keys::RIGHT),
        Port::Output => skip(text, keys::OUTPUT),
    }
}

// An input that was read, and those that follow it.
fn more_inputs(first: Operand, text: &[u8]) -> Option<(Listing, &[u8])>
    ensures { ListingRead (read_of result) (with_first first (more_at text.now)) }
{
    let mut listing = Listing::new();
    listing.push(first);
    let mut rest = text;
    while let Some(after) = skip(rest, keys::SPACE) {
        let (next, after) = operand(after)?;
        listing.push(next);
        rest = after;
    }
    Some((listing, rest))
}

// The inputs of a port and the line feed.
#[tactic(auto, unfolding(crate::specs::Pieces::input_list_at))]
fn input_list(text: &[u8]) -> Option<(Listing, &[u8])>
    ensures { ListingRead (read_of result) (input_list_at text.now) }
{
    if let Some(rest) = skip(text, keys::LINE_FEED) {
        return Some((Listing::new(), rest));
    }
    let (first, rest) = operand(text)?;
    let Some((listing, rest)) = more_inputs(first, rest) else {
        return None;
    };
    let rest = skip(rest, keys::LINE_FEED)?;
    Some((listing, rest))
}

// The line of a port.
#[tactic(auto, unfolding(crate::specs::Pieces::port_line_at))]
pub fn port_line(text: &[u8], port: Port) -> Option<(Listing, &[u8])>
    ensures { ListingRead (read_of result) (port_line_at port text.now) }
{
    input_list(port_key(text, port)?)
}

// The entries of so many adders.
fn entries(text: &[u8], count: usize) -> Option<([Option<Selection>; 8], &[u8])>
    requires { count ≤ 8 }
    ensures { read_of result ≡ with_room (entries_at count text.now) }
{
    let mut entries = [None; 8];
    let mut rest = text;
    for place in 0..count {
        let (next, after) = entry(rest)?;
        entries[place] = next;
        rest = after;
    }
    Some((entries, rest))
}

// What a code line has after its key, in a block of so many adders, of which no block has more than eight.
#[tactic(auto, unfolding(crate::specs::Pieces::selections_at))]
pub fn selections(text: &[u8], count: usize) -> Option<(Selections, &[u8])>
    ensures read { count ≤ 8 → read_of result ≡ as_selections (selections_at count text.now) }
    ensures many { 8 < count → result ≡ None }
{
    if count > MOST_ADDERS {
        return None;
    }
    let (adders, rest) = entries(text, count)?;
    let (output, rest) = number(rest)?;
    let rest = skip(rest, keys::LINE_FEED)?;
    Some((Selections { adders, output }, rest))
}

// The port lines of a sheet that is read.
ghost use Rattle.std.specs.Prelude.{◌≡◌, ◌<◌, ◌≤◌};
ghost use Rattle.ports.specs.Ports.{ports};
ghost use Rattle.reading.specs.Reader.{read_port, read_ports};
ghost use Rattle.reading.specs.Answers.{LineGiven, LinesGiven};
ghost use Rattle.reading.specs.Orders.{lists_of, place_of, no_lines, with_line};

use crate::limits::{all_allowed, bound, first_repeat};
use adders::Refusal;
use ports::{InputList, Port};
use texts::port_line;

// Two ports for each of eight adders, and the output.
const MOST_PORTS: usize = 17;

// The inputs of each port; one that has no line has none.
#[derive(Clone, Copy)]
pub struct PortLists {
    lists: [InputList; 17],
}

impl PortLists {
    pub fn new() -> PortLists
        ensures { lists_of result ≡ no_lines }
    {
        PortLists {
            lists: [InputList::new(); 17],
        }
    }

    // Where the list of a port is kept, past the last place for a port that no block has.
    fn place(port: Port) -> usize
        ensures { result ≡ place_of port }
    {
        match port {
            Port::Left(adder @ 1..=8) => 2 * adder - 2,
            Port::Right(adder @ 1..=8) => 2 * adder - 1,
            Port::Output => 16,
            _ => MOST_PORTS,
        }
    }

    pub fn at(&self, port: Port) -> InputList
        ensures { result ≡ lists_of self.now port }
    {
        self.lists
            .get(PortLists::place(port))
            .map_or(InputList::new(), |list| *list)
    }

    fn put(&mut self, port: Port, list: InputList)
        requires { place_of port < 17 }
        ensures { lists_of self.new ≡ with_line port list (lists_of self.old) }
    {
        self.lists[PortLists::place(port)] = list;
    }

    // Reads the line of a port.
    fn read_line<'a>(
        &mut self,
        text: &'a [u8],
        port: Port,
        adders: usize,
        line: usize,
    ) -> Result<&'a [u8], Refusal>
        requires room { place_of port < 17 }
        requires few { adders ≤ 8 }
        ensures { LineGiven self.old port (read_port adders line port text.now) result self.new }
    {
        let Some((listing, rest)) = port_line(text, port) else {
            return Err(Refusal::SheetForm(line));
        };
        let inputs = listing.first.as_slice();
        if listing.more || !all_allowed(inputs, bound(port, adders)) {
            return Err(Refusal::SheetLimit(line));
        }
        if first_repeat(inputs).is_some() {
            return Err(Refusal::InputRepeated(line));
        }
        self.put(port, listing.first);
        Ok(rest)
    }

    // Reads the lines of the ports of so many adders, from line 3 on.
    pub fn read<'a>(&mut self, text: &'a [u8], adders: usize) -> Result<&'a [u8], Refusal>
        requires { adders ≤ 8 }
        ensures { LinesGiven (read_ports adders 3 (ports adders) (lists_of self.old) text.now) result self.new }
    {
        let mut rest = text;
        for place in 0..2 * adders + 1 {
            rest = self.read_line(rest, Port::nth(place, adders), adders, place + 3)?;
        }
        Ok(rest)
    }
}

// The parts of a block, as they are printed.
ghost use Rattle.std.specs.Prelude.{Some, codes, ◌++◌, length};
ghost use Rattle.ports.specs.Inputs.{inputs};
ghost use Rattle.pricing.specs.declared.net.Net.TheVariants.{OfAdder, OfPort};
ghost use Rattle.pricing.specs.Nets.{width_of};
ghost use Rattle.pricing.specs.Parts.{kind_at};
ghost use Rattle.price.specs.Parts.{kind_word, adder_text, port_name, port_text, adder_line, port_line, three_lines, parts_text};

use blocks::Block;
use ports::Port;
use prices::{AdderKind, AdderPart, Multiplexer};
use pricing::{adder_at, multiplexer_at};
use std::fmt;

// What an adder does.
#[derive(Clone, Copy)]
struct KindWord {
    kind: AdderKind,
}

impl fmt::Display for KindWord {
    ghost output = { λ w. Some (kind_word w.kind) };

    fn fmt<W: fmt::Write>(&self, f: &mut fmt::Formatter<W>) -> fmt::Result {
        match self.kind {
            AdderKind::Adds => write!(f, "adds"),
            AdderKind::Subtracts => write!(f, "subtracts"),
            AdderKind::Both => write!(f, "both"),
        }
    }
}

// The name of a port.
#[derive(Clone, Copy)]
struct PortName {
    port: Port,
}

impl fmt::Display for PortName {
    ghost output = { λ n. Some (port_name n.port) };

    fn fmt<W: fmt::Write>(&self, f: &mut fmt::Formatter<W>) -> fmt::Result {
        match self.port {
            Port::Left(adder) => write!(f, "{adder}L"),
            Port::Right(adder) => write!(f, "{adder}R"),
            Port::Output => write!(f, "out"),
        }
    }
}

// An adder of a block: its kind and its width, or that no row uses it.
#[derive(Clone, Copy)]
struct AdderLine {
    block: Block,
    adder: usize,
}

impl fmt::Display for AdderLine {
    ghost output = { λ l. Some (adder_line l.block l.adder) };

    fn fmt<W: fmt::Write>(&self, f: &mut fmt::Formatter<W>) -> fmt::Result {
        let adder = self.adder;
        match adder_at(&self.block, adder) {
            Some(part) => write!(
                f,
                "a{adder}={} {}\n",
                KindWord { kind: part.kind() },
                part.width()
            ),
            None => write!(f, "a{adder}=-\n"),
        }
    }
}

// A port of a block: how many inputs it has and its width, or that no row puts one there.
#[derive(Clone, Copy)]
struct PortLine {
    block: Block,
    port: Port,
}

impl fmt::Display for PortLine {
    ghost output = { λ l. Some (port_line l.block l.port) };

    fn fmt<W: fmt::Write>(&self, f: &mut fmt::Formatter<W>) -> fmt::Result {
        let port = self.port;
        let name = PortName { port };
        match multiplexer_at(&self.block, port) {
            Some(part) => write!(f, "{name}={} {}\n", part.inputs(), part.width()),
            None => write!(f, "{name}=-\n"),
        }
    }
}

// An adder with its two ports.
#[derive(Clone, Copy)]
struct AdderReport {
    block: Block,
    adder: usize,
}

impl fmt::Display for AdderReport {
    ghost output = { λ r. Some (three_lines r.block r.adder) };

    fn fmt<W: fmt::Write>(&self, f: &mut fmt::Formatter<W>) -> fmt::Result {
        let (block, adder) = (self.block, self.adder);
        write!(f, "{}", AdderLine { block, adder })?;
        let port = Port::Left(adder);
        write!(f, "{}", PortLine { block, port })?;
        let port = Port::Right(adder);
        write!(f, "{}", PortLine { block, port })
    }
}

#[derive(Clone, Copy)]
pub struct PartsReport {
    pub block: Block,
}

// A line for each adder and each port of the block, in their order.
impl fmt::Display for PartsReport {
    ghost output = { λ r. Some (parts_text r.block) };

    fn fmt<W: fmt::Write>(&self, f: &mut fmt::Formatter<W>) -> fmt::Result {
        let block = self.block;
        for place in 0..block.adders() {
            let adder = place + 1;
            write!(f, "{}", AdderReport { block, adder })?;
        }
        let port = Port::Output;
        write!(f, "{}", PortLine { block, port })
    }
}

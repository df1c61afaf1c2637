// Which adder stands at each number of a block, and which multiplexer at each port.
ghost use Rattle.std.specs.Prelude.{◌≡◌};
ghost use Rattle.blocks.specs.Blocks.{row_of};
ghost use Rattle.pricing.specs.Parts.{MuxAt, sign_used, kind_of, signs_at, with_sign, AdderAt};

use crate::net::Net;
use adders::Sign;
use blocks::Block;
use ports::Port;
use prices::{AdderKind, AdderPart, Multiplexer};

// The multiplexer of a port: as many inputs as live rows put there, and wide enough for the largest. None where no row puts one.
pub fn multiplexer_at(block: &Block, port: Port) -> Option<Multiplexer>
    ensures { MuxAt block.now port result }
{
    Multiplexer::new(port.inputs(block).len(), Net::OfPort(port).width(block))
}

// The sign by which the row at a code uses an adder.
fn sign_used(block: &Block, adder: usize, code: usize) -> Option<Sign>
    ensures { result ≡ sign_used (row_of block.now code) adder }
{
    Some(block.row(code).ok()?.adder(adder)?.sign)
}

// By which signs live rows use an adder.
#[derive(Clone, Copy)]
pub struct SignsMet {
    pub adds: bool,
    pub subtracts: bool,
}

impl SignsMet {
    // Those of all live rows.
    #[tactic(auto, using(crate::proofs::Columns::no_sign_yet, crate::proofs::Columns::sign_more))]
    pub fn at(block: &Block, adder: usize) -> SignsMet
        ensures { result ≡ signs_at block.now adder }
    {
        let (mut adds, mut subtracts) = (false, false);
        for code in (0..16).rev() {
            match sign_used(block, adder, code) {
                Some(Sign::Plus) => adds = true,
                Some(Sign::Minus) => subtracts = true,
                None => {}
            }
        }
        SignsMet { adds, subtracts }
    }

    // With one sign more.
    pub fn with(self, sign: Sign) -> SignsMet
        ensures { result ≡ with_sign sign self }
    {
        match sign {
            Sign::Plus => SignsMet {
                adds: true,
                subtracts: self.subtracts,
            },
            Sign::Minus => SignsMet {
                adds: self.adds,
                subtracts: true,
            },
        }
    }

    // The kind of an adder that is met by these.
    pub fn kind(self) -> Option<AdderKind>
        ensures { result ≡ kind_of self.adds self.subtracts }
    {
        match (self.adds, self.subtracts) {
            (true, true) => Some(AdderKind::Both),
            (true, false) => Some(AdderKind::Adds),
            (false, true) => Some(AdderKind::Subtracts),
            (false, false) => None,
        }
    }
}

// The adder of a number: of the kind that live rows use it by, and wide enough for its largest value. None where no row uses it.
pub fn adder_at(block: &Block, adder: usize) -> Option<AdderPart>
    ensures { AdderAt block.now adder result }
{
    AdderPart::new(
        SignsMet::at(block, adder).kind()?,
        Net::OfAdder(adder).width(block),
    )
}

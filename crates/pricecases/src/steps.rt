// A price list as a customer would add it: parts come in steps of eight bits.
ghost use Rattle.std.specs.Prelude.{◌≡◌, ◌≤◌};
ghost use Rattle.pricecases.specs.Steps.{steps, step_adders, step_muxes, step_adders_lawful, step_muxes_lawful};

use prices::{AdderKind, AdderPart, Multiplexer, PriceList};

#[derive(Clone, Copy)]
pub struct StepList;

// The first step of at least this width.
fn steps(width: u32) -> u32
    requires { width ≤ 63 }
    ensures value { result ≡ steps width }
    ensures few { result ≤ 8 }
{
    width.div_ceil(8)
}

impl PriceList for StepList {
    ghost adders = { λ _. step_adders };

    ghost muxes = { λ _. step_muxes };

    ghost adders_lawful = { λ _. step_adders_lawful };

    ghost muxes_lawful = { λ _. step_muxes_lawful };

    fn adder(&self, part: AdderPart) -> u32 {
        let unit = match part.kind() {
            AdderKind::Adds => 10,
            AdderKind::Subtracts => 12,
            AdderKind::Both => 15,
        };
        unit * steps(part.width())
    }

    fn multiplexer(&self, part: Multiplexer) -> u32 {
        3 * (part.inputs() as u32 - 1) * steps(part.width())
    }
}

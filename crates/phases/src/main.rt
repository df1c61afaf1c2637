// An arithmetic of a customer's own, run by the generator's runner, by a row and by a block: the harmonics of an oscillator's phase.
#![tactic(auto)]

mod phase;

use adders::Refusal;
use blocks::Block;
use chains::Chain;
use phase::Phase;
use rows::Row;
use running::run_all;
use std::io;

// 45 times the phase, as the phase of the 45th harmonic.
const HARMONIC: &[u8] = b"chain=0.0+0.2 1.0+1.3 0";

// The code of the block at which the chain is founded, and how many bits a phase has.
const CODE: usize = 7;

const BITS: usize = 32;

// Phases in steps of a turn: none, one step, a quarter of a turn, a third, and one step short of a turn.
const PHASES: [Phase; 5] = [
    Phase { steps: 0 },
    Phase { steps: 1 },
    Phase {
        steps: 1_073_741_824,
    },
    Phase {
        steps: 1_431_655_765,
    },
    Phase {
        steps: 4_294_967_295,
    },
];

// The harmonics by the chain's own row.
fn by_row(chain: &Chain) -> Result<[Phase; 5], Refusal> {
    let mut harmonics = PHASES;
    run_all(&Row::from(*chain), &PHASES, &mut harmonics)?;
    Ok(harmonics)
}

// The harmonics by a block that has the chain at a code.
fn by_block(chain: &Chain) -> Result<[Phase; 5], Refusal> {
    let mut block = Block::new();
    block.found(chain, CODE, BITS)?;
    let mut harmonics = PHASES;
    block.run_all(CODE, &PHASES, &mut harmonics)?;
    Ok(harmonics)
}

fn main(rt: HostRuntime) -> io::Result<()> {
    let Ok(chain) = Chain::read(HARMONIC) else {
        return rt.println("no chain");
    };
    let row = match by_row(&chain) {
        Ok(harmonics) => harmonics,
        Err(refusal) => return println!(rt; "fault={}", refusal.number()),
    };
    for (phase, harmonic) in PHASES.iter().zip(&row) {
        println!(rt; "{} {}", phase.steps, harmonic.steps)?;
    }
    let block = match by_block(&chain) {
        Ok(harmonics) => harmonics,
        Err(refusal) => return println!(rt; "fault={}", refusal.number()),
    };
    println!(rt; "code={CODE}")?;
    let mut same = true;
    for (harmonic, other) in block.iter().zip(&row) {
        println!(rt; "{}", harmonic.steps)?;
        same = same && harmonic.steps == other.steps;
    }
    rt.println(if same { "the same" } else { "not the same" })
}

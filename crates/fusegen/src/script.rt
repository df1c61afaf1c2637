// The calls that an input says.
ghost use Rattle.std.specs.Prelude.{◌≡◌, IfOk, List};
ghost use Rattle.chains.specs.declared.model.Chain.{Chain};
ghost use Rattle.fusegen.specs.Scripts.{ChainLines, call_at, calls_from};

use adders::Refusal;
use calls::Call;
use chains::Chain;
use forms::first_line;
use prices::CountList;
use std::alloc::{AllocError, Global};

// The calls in their order, and why the reading of lines ended before the last, if it did.
#[derive(Drop)]
pub struct Script {
    pub calls: Vec<Call<CountList>>,
    pub stop: Option<Refusal>,
}

// With the first chain the block is founded at code 0; each chain after it is fused at the next code.
fn call_at(width: usize, code: usize, chain: Chain) -> Call<CountList>
    ensures { result ≡ call_at width code chain }
{
    if code == 0 {
        Call::Found { chain, code, width }
    } else {
        let list = CountList;
        Call::Fuse { chain, code, list }
    }
}

impl Script {
    // Of the lines of chains, up to the first that is turned down.
    pub fn read(heap: Global, text: &[u8], width: usize) -> Result<Script, AllocError>
        ensures { IfOk result (λ script. (cs : List Chain) × ChainLines text.now cs script.stop × (script.calls.items ≡ calls_from width 0 cs)) }
    {
        let mut calls = Vec::new(heap);
        let mut rest = text;
        loop {
            let (line, after) = first_line(rest);
            match Chain::read(line) {
                Ok(chain) => calls.push(call_at(width, calls.len(), chain))?,
                Err(refusal) => {
                    return Ok(Script {
                        calls,
                        stop: Some(refusal),
                    });
                }
            }
            if after.is_empty() {
                return Ok(Script { calls, stop: None });
            }
            rest = after;
        }
    }
}

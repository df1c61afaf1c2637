// What the tasks are done on.
ghost use Rattle.std.specs.Prelude.{codes};

use adders::{LineRefusal, Refusal};
use arith::Word;
use calls::read_width;
use chains::Chain;
use forms::{Key, Keyed, first_line};
use integers::NineDigits;
use rows::Row;
use std::alloc::Global;
use std::io;

// A width and chains, as a generator's input says them.
#[derive(Drop)]
pub struct Coefficients {
    pub width: usize,
    pub chains: Vec<Chain>,
}

impl Coefficients {
    pub fn read(heap: Global, text: &[u8]) -> io::Result<Result<Coefficients, LineRefusal>> {
        let (line, mut rest) = first_line(text);
        let width = match read_width(line) {
            Ok(width) => width,
            Err(refusal) => return Ok(Err(refusal.at_line(1))),
        };
        let mut chains = Vec::new(heap);
        while !rest.is_empty() {
            let (line, after) = first_line(rest);
            match Chain::read(line) {
                Ok(chain) => chains.push(chain)?,
                Err(refusal) => return Ok(Err(refusal.at_line(chains.len().saturating_add(2)))),
            }
            rest = after;
        }
        Ok(Ok(Coefficients { width, chains }))
    }
}

struct SamplesKey;

impl Key for SamplesKey {
    ghost key = { codes "samples=" };

    fn key() -> &'static [u8] {
        b"samples="
    }
}

// A row, and how many samples it is run on.
#[derive(Clone, Copy)]
pub struct Filter {
    pub row: Row,
    pub samples: usize,
}

impl Filter {
    pub fn read(text: &[u8]) -> Result<Filter, LineRefusal> {
        let (line, rest) = first_line(text);
        let chain = match Chain::read(line) {
            Ok(chain) => chain,
            Err(refusal) => return Err(refusal.at_line(1)),
        };
        let (line, _rest) = first_line(rest);
        match forms::read::<Keyed<SamplesKey, NineDigits>>(line) {
            Ok(samples) => Ok(Filter {
                row: Row::from(chain),
                samples: samples as usize,
            }),
            Err(error) => Err(Refusal::from(error).at_line(2)),
        }
    }
}

// Samples that look like noise: a linear congruence of the place.
pub fn noise(heap: Global, samples: usize) -> io::Result<Vec<Word>> {
    let mut noise = Vec::new(heap);
    let mut value = 1_442_695_040_888_963_407i64;
    for _place in 0..samples {
        noise.push(Word { value })?;
        value = value.wrapping_add(6_364_136_223_846_793_005);
    }
    Ok(noise)
}

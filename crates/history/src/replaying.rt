// A list of calls, the sheet of the block that it leaves, and runs of what is read back.
ghost use Rattle.std.specs.Prelude.{◌≡◌, length, map, is_ok, Decides};
ghost use Rattle.adders.specs.Rules.{Changed};
ghost use Rattle.history.specs.Events.{event_of};
ghost use Rattle.history.specs.Histories.{length_rules};
ghost use Rattle.history.specs.Replays.{lent, Replay};

use crate::applying::apply_all;
use crate::outcome::Outcome;
use adders::Refusal;
use arith::Arithmetic;
use blocks::Block;
use calls::Call;
use prices::PriceList;

// What a code is run on: a sample, and a buffer of samples.
#[derive(Clone, Copy)]
pub struct Samples<'a, X> {
    pub code: usize,
    pub sample: X,
    pub buffer: &'a [X],
}

// The length of the sheet, and what the two runs answer.
#[derive(Clone, Copy)]
pub struct Replayed<X> {
    pub length: usize,
    pub sample: Result<X, Refusal>,
    pub buffer: Result<(), Refusal>,
}

// Makes each call in turn on a place that is not yet founded and notes its outcome beside it, writes the sheet of the block that is left, reads it over `place`, and runs what was read.
pub fn replay<L: PriceList, X: Arithmetic>(
    calls: &[Call<L>],
    outcomes: &mut [Outcome],
    sheet: &mut [u8; 4096],
    place: &mut Block,
    samples: &Samples<X>,
    output: &mut [X],
) -> Result<Replayed<X>, Refusal>
    ensures answer { let events = map (event_of L.PriceList.adders L.PriceList.muxes) calls.now in let before = lent outcomes.old sheet.old place.old output.old in Changed (length_rules calls.now outcomes.old) before (Replay X.means X.operations X.Product events samples.now.code samples.now.sample samples.now.buffer.now before) result (lent outcomes.new sheet.new place.new output.new) }
    ensures exactly { Decides (is_ok result) (length calls.now ≡ length outcomes.old) }
{
    let block = apply_all(calls, outcomes)?;
    let length = sheets::write(&block, sheet)?;
    sheets::read(place, &sheet[..length])?;
    Ok(Replayed {
        length,
        sample: place.run(samples.code, samples.sample),
        buffer: place.run_all(samples.code, samples.buffer, output),
    })
}

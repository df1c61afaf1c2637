// Calls applied to a block.
ghost use Rattle.std.specs.Prelude.{◌≡◌, length, map, is_ok, Decides};
ghost use Rattle.adders.specs.Rules.{Changed};
ghost use Rattle.history.specs.Events.{event_of, Step};
ghost use Rattle.history.specs.Histories.{length_rules, History};

use crate::outcome::Outcome;
use adders::Refusal;
use blocks::Block;
use calls::Call;
use fusing::fuse;
use prices::PriceList;

// Makes one call.
pub fn apply<L: PriceList>(block: &mut Block, call: &Call<L>) -> Outcome
    ensures { Step (event_of L.PriceList.adders L.PriceList.muxes call.now) block.old result block.new }
{
    match call {
        Call::Found { chain, code, width } => Outcome::from(block.found(chain, *code, *width)),
        Call::Fuse { chain, code, list } => Outcome::from(fuse(block, chain, *code, list)),
        Call::Retire { code } => Outcome::from(block.retire(*code)),
        Call::Move {
            code,
            adder,
            amount,
        } => Outcome::from(block.move_shifts(*code, *adder, *amount)),
    }
}

// Makes each call in turn on a place that is not yet founded, and notes its outcome beside it.
pub fn apply_all<L: PriceList>(
    calls: &[Call<L>],
    outcomes: &mut [Outcome],
) -> Result<Block, Refusal>
    ensures answer { Changed (length_rules calls.now outcomes.old) outcomes.old (λ block after. History (map (event_of L.PriceList.adders L.PriceList.muxes) calls.now) after block) result outcomes.new }
    ensures exactly { Decides (is_ok result) (length calls.now ≡ length outcomes.old) }
{
    if calls.len() != outcomes.len() {
        return Err(Refusal::LengthsDiffer);
    }
    let mut block = Block::new();
    for (i, call) in calls.iter().enumerate() {
        outcomes[i] = apply(&mut block, call);
    }
    Ok(block)
}

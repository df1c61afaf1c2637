// Fusing a chain at an idle code.
ghost use Rattle.std.specs.Prelude.{◌≡◌, ℕ, ◌≢◌, Some, is_ok, IfOk, Decides};
ghost use Rattle.adders.specs.Rules.{Tried};
ghost use Rattle.chains.specs.Chains.{chain_constant};
ghost use Rattle.blocks.specs.Blocks.{constant_at};
ghost use Rattle.prices.specs.Tables.{tables};
ghost use Rattle.pricing.specs.Prices.{block_price};
ghost use Rattle.fusing.specs.Fusing.{Fusing, Fusable, fusing_rules};
ghost use Rattle.fusing.specs.Books.{FollowsBook};
ghost use Rattle.fusing.specs.Tasks.{ChosenRow};

use crate::task::Task;
use adders::Refusal;
use blocks::Block;
use chains::Chain;
use placing::placed_row;
use prices::PriceList;
use pricing::price;
use rows::Row;
use search::cheapest;

// The first cause to turn a fusing down.
#[tactic(auto, using(crate::proofs::Books::same_live))]
fn tried(block: &Block, chain: &Chain, code: usize) -> Result<(), Refusal>
    ensures { Tried
        (fusing_rules block.now.adders (constant_at block.now) chain.now code) tt result }
{
    match block.row(code) {
        Ok(_) => Err(Refusal::CodeLive),
        Err(Refusal::CodeIdle) if chain.adders().len() > block.adders() => Err(
            Refusal::BlockTooSmall,
        ),
        Err(Refusal::CodeIdle) => Ok(()),
        Err(refusal) => Err(refusal),
    }
}

// The row of the cheapest placement, and of the first where several cost as little.
fn cheapest_row<L: PriceList>(block: &Block, chain: &Chain, list: &L) -> Result<Row, Refusal>
    ensures { ChosenRow (tables (L.PriceList.adders list.now) (L.PriceList.muxes list.now)) block.now chain.now result }
{
    let task = Task::new(block, chain, list);
    let found = cheapest(&task).ok_or(Refusal::BlockTooSmall)?;
    let swaps = task.swaps(found.choices);
    let places = found.choices.as_slice();
    placed_row(chain, places, &swaps[..places.len()])
}

// Puts a chain at an idle code by the cheapest of its placements under a price list, and answers what the block then costs.
pub fn fuse<L: PriceList>(
    block: &mut Block,
    chain: &Chain,
    code: usize,
    list: &L,
) -> Result<u32, Refusal>
    ensures answer { let t = tables (L.PriceList.adders list.now) (L.PriceList.muxes list.now) in
        Fusing (block_price t) chain.now code block.old result block.new }
    ensures exactly { Decides (is_ok result) (Fusable block.old code chain.now) }
    ensures constant { IfOk result
        (λ _. constant_at block.new code ≡ Some (chain_constant chain.now)) }
    ensures others { (k : ℕ) → k ≢ code → constant_at block.new k ≡ constant_at block.old k }
    ensures size { (block.new.adders ≡ block.old.adders) × (block.new.width ≡ block.old.width) }
    ensures book { FollowsBook chain.now code block.old result block.new }
{
    tried(block, chain, code)?;
    let row = cheapest_row(block, chain, list)?;
    *block = block.with_row(code, row)?;
    Ok(price(block, list))
}

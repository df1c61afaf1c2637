// Retiring a code with a look at what it saves.
ghost use Rattle.std.specs.Prelude.{is_ok, Decides};
ghost use Rattle.blocks.specs.Blocks.{Live};
ghost use Rattle.blocks.specs.Calls.{retiring, Step};
ghost use Rattle.blocks.specs.Books.{FollowsBook};
ghost use Rattle.prices.specs.Tables.{tables};
ghost use Rattle.pricing.specs.Laws.{NeverDearer, Saving, without_number};

use crate::sums::price;
use adders::Refusal;
use blocks::Block;
use prices::PriceList;

// Makes a live code idle, and answers by how much less the block costs. Under no lawful list does it cost more.
pub fn retire<L: PriceList>(block: &mut Block, code: usize, list: &L) -> Result<u32, Refusal>
    ensures answer { Saving (tables (L.PriceList.adders list.now) (L.PriceList.muxes list.now)) code
        block.old result block.new }
    ensures exactly { Decides (is_ok result) (Live block.old code) }
    ensures never_dearer { NeverDearer block.new block.old }
    ensures retires { Step (retiring code) block.old (without_number result) block.new }
    ensures book { FollowsBook (retiring code) block.old (without_number result) block.new }
{
    let before = price(block, list);
    block.retire(code)?;
    Ok(before - price(block, list))
}

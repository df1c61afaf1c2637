// Founding, retiring and moving, and what a block has.
ghost use Rattle.std.specs.Prelude.{◌≡◌, ◌≤◌, Some, is_ok, Decides};
ghost use Rattle.adders.specs.Rules.{Answered};
ghost use Rattle.tables.specs.Tables.{live_rules};
ghost use Rattle.blocks.specs.Blocks.{Unfounded, row_of, Live, constant_at, SameConstants};
ghost use Rattle.blocks.specs.Calls.{founding, retiring, moving, MovableAt, Step};
ghost use Rattle.blocks.specs.Books.{empty_book, Tells, FollowsBook};

use super::{Block, MOST_BITS};
use adders::Refusal;
use chains::Chain;
use rows::Row;
use tables::Table;

impl Block {
    // A place that is not yet founded.
    pub fn new() -> Block
        ensures unfounded { Unfounded result }
        ensures book { Tells empty_book result }
    {
        Block {
            adders: 0,
            width: 1,
            table: Table::new(),
        }
    }

    // How many adders it has.
    pub fn adders(&self) -> usize
        ensures { result ≡ self.now.adders }
    {
        self.adders as usize
    }

    // How many bits a sample has.
    pub fn width(&self) -> usize
        ensures { result ≡ self.now.width }
    {
        self.width as usize
    }

    // The row of a live code.
    pub fn row(&self, code: usize) -> Result<Row, Refusal>
        ensures { Answered (live_rules code (row_of self.now code)) (λ r. row_of self.now code ≡ Some r) result }
    {
        self.table.row(code)
    }

    // What a live code multiplies by.
    pub fn constant(&self, code: usize) -> Result<u32, Refusal>
        ensures { Answered (live_rules code (constant_at self.now code)) (λ c. constant_at self.now code ≡ Some c) result }
    {
        Ok(self.row(code)?.constant())
    }

    // Starts anew with the row of a chain at one code, whatever was there.
    pub fn found(&mut self, chain: &Chain, code: usize, width: usize) -> Result<(), Refusal>
        ensures answer { Step (founding chain.now code width) self.old result self.new }
        ensures exactly { Decides (is_ok result) ((code ≤ 15) × (1 ≤ width) × (width ≤ 32)) }
        ensures book { FollowsBook (founding chain.now code width) self.old result self.new }
    {
        let mut table = Table::new();
        table.put(code, Row::from(*chain))?;
        if !(1..=MOST_BITS).contains(&width) {
            return Err(Refusal::WidthOutOfRange);
        }
        *self = Block {
            adders: chain.adders().len() as u8,
            width: width as u8,
            table,
        };
        Ok(())
    }

    // Makes a live code idle.
    pub fn retire(&mut self, code: usize) -> Result<(), Refusal>
        ensures answer { Step (retiring code) self.old result self.new }
        ensures exactly { Decides (is_ok result) (Live self.old code) }
        ensures book { FollowsBook (retiring code) self.old result self.new }
    {
        let mut table = self.table;
        table.take(code)?;
        *self = Block {
            adders: self.adders,
            width: self.width,
            table,
        };
        Ok(())
    }

    // Raises both shifts of an adder in the row of a live code, and lowers by as much whatever reads the adder there.
    pub fn move_shifts(&mut self, code: usize, adder: usize, amount: i64) -> Result<(), Refusal>
        ensures answer { Step (moving code adder amount) self.old result self.new }
        ensures exactly { Decides (is_ok result) (MovableAt self.old code adder amount) }
        ensures constants { SameConstants self.old self.new }
        ensures book { FollowsBook (moving code adder amount) self.old result self.new }
    {
        let mut table = self.table;
        table.row_mut(code)?.move_shifts(adder, amount)?;
        *self = Block {
            adders: self.adders,
            width: self.width,
            table,
        };
        Ok(())
    }
}

impl Default for Block {
    ghost is_default = { Unfounded };

    fn default() -> Block {
        Block::new()
    }
}

// A table of sixteen select codes, each idle or live with a row. One row is lent to be changed; the other fifteen stay.
#![tactic(auto)]

ghost use Rattle.std.specs.Prelude.{◌≡◌, ◌<◌, ⊤, replicate, Some, None, slice_index_or};
ghost use Rattle.std.specs.Borrow.{sem, Lends, LendsIfOk};
ghost use Rattle.std.specs.contracts.option.Option.{the_row as option_row};
ghost use Rattle.adders.specs.Rules.{Changed};
ghost use Rattle.tables.specs.Tables.{LiveRow, code_rules, live_rules, row_at, with_place};
ghost use Rattle.tables.specs.contracts.Table.{the_row as table_row};

use adders::Refusal;
use std::alloc::AllocError;

// A code is live where it has a row.
#[derive(Drop)]
pub struct Table<R> {
    rows: [Option<R>; 16],
}

impl<R: Copy> Copy for Table<R> {}

impl<R: Copy> Clone for Table<R> {
    ghost is_clone = { λ t u. u ≡ t };

    ghost is_infallible = { λ t. ⊤ };

    fn clone(&self) -> Result<Self, AllocError> {
        Ok(*self)
    }
}

impl<R> Table<R> {
    // Lends the place of a code.
    fn place_mut(&mut self, code: usize) -> &mut Option<R>
        requires { code < 16 }
        ensures* lent { sem 𝓛 (Lends (table_row R.row) (option_row R.row) self.entry result (with_place self.old code)) }
        ensures value { result.now ≡ slice_index_or self.old.rows code None }
    {
        &mut self.rows[code]
    }

    // Lends the row of a live code.
    pub fn row_mut(&mut self, code: usize) -> Result<&mut R, Refusal>
        ensures* lent { sem 𝓛 (LendsIfOk (table_row R.row) R.row self.entry result (λ w. with_place self.old code (Some w)) self.old) }
        ensures value { LiveRow (self.old) code (λ r. r.now) result }
    {
        if code > 15 {
            return Err(Refusal::CodeAboveFifteen);
        }
        let Some(row) = self.place_mut(code).as_mut() else {
            return Err(Refusal::CodeIdle);
        };
        Ok(row)
    }
}

impl<R: Copy> Table<R> {
    // A table without a live code.
    pub fn new() -> Self
        ensures { result.rows ≡ replicate 16 None }
    {
        Table { rows: [None; 16] }
    }

    // The row of a live code.
    pub fn row(&self, code: usize) -> Result<R, Refusal>
        ensures { LiveRow self.now code (λ r. r) result }
    {
        if code > 15 {
            return Err(Refusal::CodeAboveFifteen);
        }
        self.rows[code].ok_or(Refusal::CodeIdle)
    }

    // Makes a code live with this row, in place of the row that it may have.
    pub fn put(&mut self, code: usize, row: R) -> Result<(), Refusal>
        ensures { Changed (code_rules code) self.old (λ _ after. after ≡ with_place self.old code (Some row)) result self.new }
    {
        if code > 15 {
            return Err(Refusal::CodeAboveFifteen);
        }
        *self.place_mut(code) = Some(row);
        Ok(())
    }

    // Makes a live code idle, and hands its row out.
    pub fn take(&mut self, code: usize) -> Result<R, Refusal>
        ensures { Changed (live_rules code (row_at self.old code)) self.old (λ r after. (row_at self.old code ≡ Some r) × (after ≡ with_place self.old code None)) result self.new }
    {
        if code > 15 {
            return Err(Refusal::CodeAboveFifteen);
        }
        self.place_mut(code).take().ok_or(Refusal::CodeIdle)
    }
}

impl<R: Copy> Default for Table<R> {
    ghost is_default = { λ t. t.rows ≡ replicate 16 None };

    fn default() -> Self {
        Table::new()
    }
}

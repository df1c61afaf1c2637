// A row that keeps every rule. Its calls stand in a module below, since they cite definitions that name it.
ghost use Rattle.std.specs.Prelude.{◌≡◌, false, length, is_some};
ghost use Rattle.adders.specs.Rules.{first_broken};
ghost use Rattle.rows.specs.Rules.{row_rules};

use adders::{Adder, Operand};

pub mod calls;
pub mod moving;

// For each of eight adders nothing or its operands and its sign, and what the output reads.
#[derive(Clone, Copy)]
pub struct Row {
    slots: [Option<Adder>; 8],
    output: Operand,
    ghost room: { length slots ≡ 8 },
    ghost lawful: { is_some (first_broken (row_rules slots output)) ≡ false },
}

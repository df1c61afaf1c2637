// A chain that keeps every rule. Its calls stand in a module below, since they cite definitions that name it.
ghost use Rattle.std.specs.Prelude.{◌≡◌, ◌≤◌, false, length, is_some};
ghost use Rattle.adders.specs.Rules.{first_broken};
ghost use Rattle.chains.specs.Rules.{chain_rules};

use adders::AdderList;

pub mod calls;

// Up to eight adders and an output shift.
#[derive(Clone, Copy)]
pub struct Chain {
    adders: AdderList<8>,
    shift: u8,
    ghost few: { length adders ≤ 8 },
    ghost lawful: { is_some (first_broken (chain_rules adders shift)) ≡ false },
}

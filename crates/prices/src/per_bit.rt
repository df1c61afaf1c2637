// The per-bit list: a part costs so much for each bit of its width. Its calls stand in a module below, since they cite definitions that name it.
ghost use Rattle.std.specs.Prelude.{◌≤◌};

pub mod calls;

// The unit prices of a per-bit list: of adders by their kind, and of a multiplexer's inputs past the first.
#[derive(Clone, Copy, Debug, PartialEq, Eq)]
pub struct UnitPrices {
    pub adds: u32,
    pub subtracts: u32,
    pub both: u32,
    pub two_to_one: u32,
}

// Unit prices up to 1,000, of which `both` is below neither other kind of adder.
#[derive(Clone, Copy)]
pub struct PerBitList {
    units: UnitPrices,
    ghost both_most: { units.both ≤ 1000 },
    ghost mux_most: { units.two_to_one ≤ 1000 },
    ghost adds_less: { units.adds ≤ units.both },
    ghost subtracts_less: { units.subtracts ≤ units.both },
}

// Price lists: what adders and multiplexers cost, under laws that each list keeps.
#![tactic(auto)]

mod adder;
mod count;
mod either;
mod laws;
mod list;
mod multiplexer;
mod per_bit;

pub use adder::{AdderKind, AdderPart};
pub use count::CountList;
pub use either::EitherList;
pub use laws::supplied_lists_are_lawful;
pub use list::PriceList;
pub use multiplexer::Multiplexer;
pub use per_bit::{PerBitList, UnitPrices};

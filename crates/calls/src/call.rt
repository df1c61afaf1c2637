// Calls on a block, by their arguments.
use adders::Refusal;
use chains::Chain;
use prices::{CountList, EitherList, PerBitList};

// A list that can be named in a line: the count list, or a per-bit list.
pub type SuppliedList = EitherList<CountList, PerBitList>;

// A call on a block. A chain is fused under a price list.
#[derive(Clone, Copy)]
pub enum Call<L> {
    Found {
        chain: Chain,
        code: usize,
        width: usize,
    },
    Fuse {
        chain: Chain,
        code: usize,
        list: L,
    },
    Retire {
        code: usize,
    },
    Move {
        code: usize,
        adder: usize,
        amount: i64,
    },
}

// Why a line gives no call.
#[derive(Clone, Copy)]
pub enum Unread {
    // it is none of the lines that say a call
    Unreadable,
    // it says a call whose unit prices or whose chain are turned down
    Refused(Refusal),
}

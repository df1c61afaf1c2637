// What standard input is answered. Its calls stand in a module below, since they cite definitions that name it.
use adders::LineRefusal;
use blocks::Block;
use prices::PerBitList;

pub mod calls;

// A block, and the list that it is priced by besides the count list.
#[derive(Clone, Copy)]
pub struct Bill {
    pub block: Block,
    pub list: PerBitList,
}

#[derive(Clone, Copy)]
pub struct Report {
    pub answer: Result<Bill, LineRefusal>,
}

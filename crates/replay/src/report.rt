// What is printed for a line of a script. Its calls stand in a module below, since they cite definitions that name it.
use adders::Refusal;

pub mod printed;

#[derive(Clone, Copy)]
pub enum LineReport {
    // the call was done
    Done,
    // the fusing was done, and this is the block's new price
    Priced(u32),
    // the unit prices, the chain or the call was turned down
    Fault(Refusal),
    // the line says no call
    NoCall,
}

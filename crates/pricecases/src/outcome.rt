// What a block costs, and what each retiring saves, as they are printed.
use crate::steps::StepList;
use adders::Refusal;
use blocks::Block;
use prices::{CountList, EitherList, PerBitList, UnitPrices};
use pricing::{price, retire};
use std::{fmt, io};

type AnyList = EitherList<CountList, PerBitList>;

fn per_bit(units: [u32; 4]) -> Result<AnyList, Refusal> {
    let [adds, subtracts, both, two_to_one] = units;
    let list = PerBitList::new(UnitPrices {
        adds,
        subtracts,
        both,
        two_to_one,
    })?;
    Ok(EitherList::Second(list))
}

// A block under the count list, three per-bit lists, and a list of a type of its own.
#[derive(Clone, Copy)]
struct Prices {
    block: Block,
    lists: [AnyList; 4],
}

impl Prices {
    fn of(sheet: &str) -> Result<Prices, Refusal> {
        let mut block = Block::new();
        sheets::read(&mut block, sheet.as_bytes())?;
        let lists = [
            EitherList::First(CountList),
            per_bit([4, 5, 6, 2])?,
            per_bit([1000, 1, 1000, 7])?,
            per_bit([3, 0, 3, 1000])?,
        ];
        Ok(Prices { block, lists })
    }

    // What the first per-bit list saves by retiring a code.
    fn saved(&self, code: usize) -> Result<u32, Refusal> {
        let mut block = self.block;
        retire(&mut block, code, &self.lists[1])
    }
}

impl fmt::Display for Prices {
    fn fmt<W: fmt::Write>(&self, f: &mut fmt::Formatter<W>) -> fmt::Result {
        let Prices { block, lists } = self;
        let [count, first, second, third] = lists;
        write!(
            f,
            "count {}, per bit {}",
            price(block, count),
            price(block, first)
        )?;
        write!(f, " {} {}", price(block, second), price(block, third))?;
        write!(f, ", in steps {}", price(block, &StepList))
    }
}

// By code.
#[derive(Clone, Copy)]
struct Savings {
    prices: Prices,
}

impl fmt::Display for Savings {
    fn fmt<W: fmt::Write>(&self, f: &mut fmt::Formatter<W>) -> fmt::Result {
        for code in 0..16usize {
            if let Ok(saved) = self.prices.saved(code) {
                write!(f, " s{code:02}={saved}")?;
            }
        }
        Ok(())
    }
}

// Prints a block by its label.
pub fn print(rt: &impl Print, label: &str, sheet: &str) -> io::Result<()> {
    match Prices::of(sheet) {
        Ok(prices) => {
            println!(rt; "{label}: {prices}")?;
            let savings = Savings { prices };
            println!(rt; "{label}: retiring saves{savings}")
        }
        Err(refusal) => println!(rt; "{label}: refused by {}", refusal.number()),
    }
}

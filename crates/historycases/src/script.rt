// A list of calls, some of which are turned down, under price lists of two types.
use adders::Refusal;
use calls::{Call, SuppliedList};
use chains::Chain;
use prices::{CountList, EitherList, PerBitList, UnitPrices};

// Ten, three and five times a sample, and a chain of two adders.
const TEN: &[u8] = b"chain=0.0+0.2 1";

const THREE: &[u8] = b"chain=0.0+0.1 0";

const FIVE: &[u8] = b"chain=0.0+0.2 0";

const TWO_ADDERS: &[u8] = b"chain=0.0+0.2 1.3+1.4 1";

pub const CALLS: usize = 10;

fn found(line: &[u8], code: usize) -> Result<Call<SuppliedList>, Refusal> {
    let chain = Chain::read(line)?;
    Ok(Call::Found {
        chain,
        code,
        width: 16,
    })
}

fn fuse_by_count(line: &[u8], code: usize) -> Result<Call<SuppliedList>, Refusal> {
    let chain = Chain::read(line)?;
    Ok(Call::Fuse {
        chain,
        code,
        list: EitherList::First(CountList),
    })
}

fn fuse_by_bits(line: &[u8], code: usize) -> Result<Call<SuppliedList>, Refusal> {
    let chain = Chain::read(line)?;
    let list = PerBitList::new(UnitPrices {
        adds: 4,
        subtracts: 5,
        both: 6,
        two_to_one: 2,
    })?;
    Ok(Call::Fuse {
        chain,
        code,
        list: EitherList::Second(list),
    })
}

fn move_shifts(code: usize, adder: usize, amount: i64) -> Call<SuppliedList> {
    Call::Move {
        code,
        adder,
        amount,
    }
}

// A founding, two fusings, a move and a retiring are done; the calls between them are turned down.
pub fn script() -> Result<[Call<SuppliedList>; CALLS], Refusal> {
    Ok([
        Call::Retire { code: 0 },
        found(TEN, 0)?,
        fuse_by_count(THREE, 0)?,
        fuse_by_bits(TWO_ADDERS, 1)?,
        fuse_by_count(THREE, 1)?,
        fuse_by_bits(FIVE, 2)?,
        move_shifts(0, 1, 2),
        move_shifts(0, 1, 1),
        Call::Retire { code: 2 },
        found(TWO_ADDERS, 16)?,
    ])
}

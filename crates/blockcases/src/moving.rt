// Moves of the shifts of an adder, each in a block where its chain was founded.
use adders::Refusal;
use blocks::Block;
use chains::Chain;
use rows::Row;

pub(crate) const CODE: usize = 5;

// A number and a place.
type Fault = (u8, usize);

pub(crate) fn fault(refusal: Refusal) -> Fault {
    (refusal.number(), refusal.place())
}

// A block with the chain of a line at one code.
pub(crate) fn founded(line: &[u8]) -> Result<Block, Refusal> {
    let mut block = Block::new();
    block.found(&Chain::read(line)?, CODE, 16)?;
    Ok(block)
}

fn moved(line: &[u8], adder: usize, amount: i64) -> Result<Block, Refusal> {
    let mut block = founded(line)?;
    block.move_shifts(CODE, adder, amount)?;
    Ok(block)
}

// The row that a move leaves is that of the chain of another line.
fn gives(line: &[u8], adder: usize, amount: i64, after: &[u8]) -> bool {
    match (moved(line, adder, amount), Chain::read(after)) {
        (Ok(block), Ok(chain)) => {
            let expected = Row::from(chain);
            block.row(CODE).is_ok_and(|row| {
                row.slots() == expected.slots() && row.output() == expected.output()
            })
        }
        _ => false,
    }
}

// The move is turned down, and the row is that of the line still.
fn refuses(line: &[u8], adder: usize, amount: i64, expected: Fault) -> bool {
    moved(line, adder, amount).is_err_and(|refusal| fault(refusal) == expected)
}

pub(crate) fn accepted() -> [(&'static str, bool); 6] {
    [
        (
            "the output falls by 1",
            gives(b"chain=0.0+0.2 1", 1, 1, b"chain=0.1+0.3 0"),
        ),
        (
            "a reader falls on both ports",
            gives(b"chain=0.0+0.2 1.3+1.4 1", 1, 3, b"chain=0.3+0.5 1.0+1.1 1"),
        ),
        (
            "shifts fall and two readers rise",
            gives(
                b"chain=0.3+0.5 1.0+0.1 2.1-1.0 0",
                1,
                -3,
                b"chain=0.0+0.2 1.3+0.1 2.1-1.3 0",
            ),
        ),
        (
            "an adder between two",
            gives(
                b"chain=0.0+0.2 1.0+1.11 2.5+0.5 3.0-2.1 0",
                2,
                1,
                b"chain=0.0+0.2 1.1+1.12 2.4+0.5 3.0-2.0 0",
            ),
        ),
        (
            "an amount of 0",
            gives(b"chain=0.0+0.2 1", 1, 0, b"chain=0.0+0.2 1"),
        ),
        (
            "shifts up to 29",
            gives(b"chain=0.0+0.0 29", 1, 29, b"chain=0.29+0.29 0"),
        ),
    ]
}

pub(crate) fn refused() -> [(&'static str, bool); 14] {
    let two = b"chain=0.0+0.2 1.3+1.4 1";
    [
        ("adder 0", refuses(two, 0, 1, (24, 0))),
        ("an adder past the last", refuses(two, 3, 1, (24, 0))),
        ("an adder past the eighth", refuses(two, 9, 31, (24, 0))),
        ("the largest adder", refuses(two, usize::MAX, 1, (24, 0))),
        ("an amount of 31", refuses(two, 1, 31, (25, 0))),
        ("an amount of -31", refuses(two, 1, -31, (25, 0))),
        ("the least amount", refuses(two, 1, i64::MIN, (25, 0))),
        (
            "an output below 0",
            refuses(b"chain=0.0+0.2 1", 1, 2, (13, 0)),
        ),
        ("a reader below 0", refuses(two, 1, 4, (13, 2))),
        ("an own shift below 0", refuses(two, 1, -1, (13, 1))),
        (
            "an own shift above 30 before a reader",
            refuses(b"chain=0.30-0.0 1.0-0.0 0", 1, 1, (13, 1)),
        ),
        (
            "a reader before the output",
            refuses(b"chain=0.0+0.2 1.0+1.4 0", 1, 1, (13, 2)),
        ),
        (
            "an amount of 30",
            refuses(b"chain=0.1-0.0 30", 1, 30, (13, 1)),
        ),
        (
            "an operand above 2,147,483,647",
            refuses(b"chain=0.0+0.1 1.29-1.28 1", 2, 1, (15, 2)),
        ),
    ]
}

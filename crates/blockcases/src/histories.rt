// A few calls after one another.
use crate::moving::{CODE, fault, founded};
use adders::Refusal;
use arith::{Frame, Mod255, Residue, Word};
use blocks::Block;
use chains::Chain;

// The two blocks have the same adder count, width and rows.
fn same(one: &Block, other: &Block) -> bool {
    let rows = (0..16usize).all(|code| match (one.row(code), other.row(code)) {
        (Ok(r), Ok(s)) => r.slots() == s.slots() && r.output() == s.output(),
        (Err(d), Err(e)) => d == e,
        _ => false,
    });
    one.adders() == other.adders() && one.width() == other.width() && rows
}

// Only one code is live.
fn only(block: &Block, live: usize) -> bool {
    (0..16usize).all(|code| block.row(code).is_ok() == (code == live))
}

// A second founding discards the first.
fn founding_discards() -> Result<bool, Refusal> {
    let mut block = founded(b"chain=0.0+0.2 1.3+1.4 1")?;
    block.found(&Chain::read(b"chain=3")?, 2, 8)?;
    Ok(only(&block, 2) && block.adders() == 0 && block.width() == 8 && block.constant(2)? == 8)
}

// Refused calls leave the block as it was.
fn refusals_change_nothing() -> Result<bool, Refusal> {
    let first = founded(b"chain=0.0+0.2 1.3+1.4 1")?;
    let chain = Chain::read(b"chain=0")?;
    let mut block = first;
    let refused = [
        block.found(&chain, 16, 16),
        block.found(&chain, CODE, 33),
        block.retire(CODE + 1),
        block.move_shifts(CODE, 1, 4),
        block.move_shifts(CODE, 3, 1),
        block.move_shifts(CODE, 1, 31),
        block.move_shifts(CODE + 1, 1, 1),
    ];
    Ok(refused.iter().all(|answer| answer.is_err()) && same(&block, &first))
}

// A retired code is idle, and is not retired twice.
fn retired_once() -> Result<bool, Refusal> {
    let mut block = founded(b"chain=0.0+0.2 1")?;
    block.retire(CODE)?;
    let idle = (0..16usize).all(|code| block.row(code).is_err());
    let again = block.retire(CODE).is_err_and(|e| fault(e) == (23, 0));
    Ok(idle && again && block.adders() == 1 && block.width() == 16)
}

// A move and the move back leave the block as it was.
fn there_and_back() -> Result<bool, Refusal> {
    let first = founded(b"chain=0.0+0.2 1.3+1.4 1")?;
    let mut block = first;
    block.move_shifts(CODE, 1, 2)?;
    let between = !same(&block, &first) && block.constant(CODE)? == 240;
    block.move_shifts(CODE, 1, -2)?;
    Ok(between && same(&block, &first))
}

// A code answers in every arithmetic as before the move.
fn answers_stay() -> Result<bool, Refusal> {
    let block = founded(b"chain=0.0+0.2 1.3+1.4 1")?;
    let mut moved = block;
    moved.move_shifts(CODE, 1, 3)?;
    let frame = Frame {
        left: Word { value: -7 },
        right: Residue::<Mod255>::new(200),
    };
    let before = block.run(CODE, frame)?;
    let after = moved.run(CODE, frame)?;
    let alike = before.left == after.left && before.right.number == after.right.number;
    Ok(alike && after.left == Word { value: -1680 } && after.right.number == 60)
}

// Each place of a buffer has its product.
fn buffers() -> Result<bool, Refusal> {
    let mut block = founded(b"chain=0.0+0.2 1")?;
    block.move_shifts(CODE, 1, 1)?;
    let input = [Word { value: -7 }, Word { value: 0 }, Word { value: 200 }];
    let mut output = [Word { value: 9 }; 3];
    block.run_all(CODE, &input, &mut output)?;
    Ok(output == [Word { value: -70 }, Word { value: 0 }, Word { value: 2000 }])
}

// Buffers of different lengths are refused after the code, and the output stays.
fn lengths_differ() -> Result<bool, Refusal> {
    let block = founded(b"chain=0.0+0.2 1")?;
    let input = [Word { value: 1 }];
    let mut output = [Word { value: 9 }; 2];
    let answer = block.run_all(CODE, &input, &mut output);
    Ok(answer.is_err_and(|e| fault(e) == (27, 0)) && output == [Word { value: 9 }; 2])
}

pub(crate) fn all() -> [(&'static str, bool); 7] {
    let holds = |answer: Result<bool, Refusal>| answer == Ok(true);
    [
        ("a second founding", holds(founding_discards())),
        ("refused calls", holds(refusals_change_nothing())),
        ("a retired code", holds(retired_once())),
        ("a move and the move back", holds(there_and_back())),
        ("answers after a move", holds(answers_stay())),
        ("a buffer", holds(buffers())),
        ("buffers of different lengths", holds(lengths_differ())),
    ]
}

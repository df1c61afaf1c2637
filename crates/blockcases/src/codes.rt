// Codes and widths at their limits.
use crate::moving::{CODE, fault, founded};
use adders::Refusal;
use arith::Word;
use blocks::Block;
use chains::Chain;

fn found(code: usize, width: usize) -> Result<(), Refusal> {
    let chain = Chain::read(b"chain=0.0+0.2 1")?;
    Block::new().found(&chain, code, width)
}

fn refuses(answer: Result<(), Refusal>, number: u8) -> bool {
    answer.is_err_and(|refusal| fault(refusal) == (number, 0))
}

pub(crate) fn foundings() -> [(&'static str, bool); 7] {
    [
        ("code 0 with width 1", found(0, 1).is_ok()),
        ("code 15 with width 32", found(15, 32).is_ok()),
        ("code 16", refuses(found(16, 16), 20)),
        ("code 16 before width 0", refuses(found(16, 0), 20)),
        ("the largest code", refuses(found(usize::MAX, 16), 20)),
        ("width 0", refuses(found(0, 0), 26)),
        ("width 33", refuses(found(0, 33), 26)),
    ]
}

// The calls at a code of a block whose one live code is another.
fn calls(code: usize) -> Result<[Result<(), Refusal>; 6], Refusal> {
    let block = founded(b"chain=0.0+0.2 1")?;
    let mut retired = block;
    let mut moved = block;
    let input = [Word { value: 1 }];
    let mut output = [Word { value: 7 }; 2];
    let ran = block.run_all(code, &input, &mut output);
    Ok([
        retired.retire(code),
        moved.move_shifts(code, 9, 31),
        block.row(code).map(|_row| ()),
        block.constant(code).map(|_constant| ()),
        block.run(code, Word { value: 1 }).map(|_product| ()),
        ran,
    ])
}

fn all_refuse(code: usize, number: u8) -> bool {
    calls(code).is_ok_and(|answers| answers.iter().all(|answer| refuses(*answer, number)))
}

pub(crate) fn turned_down() -> [(&'static str, bool); 5] {
    [
        ("an idle code", all_refuse(CODE - 1, 23)),
        ("code 15, idle", all_refuse(15, 23)),
        ("code 16", all_refuse(16, 20)),
        ("the largest code", all_refuse(usize::MAX, 20)),
        (
            "a place that is not founded",
            refuses(Block::new().retire(0), 23),
        ),
    ]
}

// A block that was read, as it is printed.
ghost use Rattle.std.specs.Prelude.{Some};
ghost use Rattle.readsheet.specs.Blocks.{code_text, block_text};

use blocks::Block;
use depths::depth;
use std::fmt;

// What a code of a block multiplies by.
#[derive(Clone, Copy)]
struct CodeReport {
    code: usize,
    constant: Option<u32>,
}

// The line of a live code, with its line feed; an idle one has none.
impl fmt::Display for CodeReport {
    ghost output = { λ r. Some (code_text r.code r.constant) };

    fn fmt<W: fmt::Write>(&self, f: &mut fmt::Formatter<W>) -> fmt::Result {
        let (tens, ones) = (self.code / 10, self.code % 10);
        match self.constant {
            Some(constant) => write!(f, "s{tens}{ones}={constant}\n"),
            None => Ok(()),
        }
    }
}

#[derive(Clone, Copy)]
pub struct BlockReport {
    pub block: Block,
}

// A line for each live code and one for the depth, without a line feed at the end.
impl fmt::Display for BlockReport {
    ghost output = { λ r. Some (block_text r.block) };

    fn fmt<W: fmt::Write>(&self, f: &mut fmt::Formatter<W>) -> fmt::Result {
        for code in 0..16usize {
            let constant = self.block.constant(code).ok();
            write!(f, "{}", CodeReport { code, constant })?;
        }
        write!(f, "depth={}", depth(&self.block))
    }
}

// What an input is answered, as it is printed.
ghost use Rattle.std.specs.Prelude.{Some, IfOk};
ghost use Rattle.fusegen.specs.Generated.{Generated};
ghost use Rattle.fusegen.specs.Answers.{said, answer_text};

use crate::generate::generate;
use adders::LineRefusal;
use std::alloc::{AllocError, Global};
use std::{fmt, io, str};

// The sheet of the block that an input says, or what is turned down and in which line.
#[derive(Clone, Copy)]
pub struct Answer<'a> {
    sheet: Result<&'a [u8], LineRefusal>,
}

impl<'a> Answer<'a> {
    // To an input, with room for the sheet.
    pub fn to(
        heap: Global,
        input: &[u8],
        room: &'a mut [u8; 4096],
    ) -> Result<Answer<'a>, AllocError>
        ensures { IfOk result (λ answer. Generated input.now (said answer.sheet)) }
    {
        let sheet = match generate(heap, input, room)? {
            Ok(length) => Ok(&room[..length]),
            Err(refusal) => Err(refusal),
        };
        Ok(Answer { sheet })
    }
}

// The last line with its line feed too. A sheet is text, so that no other bytes are met.
impl fmt::Display for Answer<'_> {
    ghost output = { λ a. Some (answer_text (said a.sheet)) };

    fn fmt<W: fmt::Write>(&self, f: &mut fmt::Formatter<W>) -> fmt::Result {
        match self.sheet {
            Ok(sheet) => match str::from_utf8(sheet) {
                Ok(text) => f.write_str(text),
                Err(_) => Err(fmt::Error),
            },
            Err(refusal) => writeln!(f, "{refusal}"),
        }
    }
}

// Prints the answer to an input.
pub fn print_answer(rt: &impl Print, heap: Global, input: &[u8]) -> io::Result<()> {
    let mut room = [0; 4096];
    rt.print(Answer::to(heap, input, &mut room)?)
}

// Reads a line of the form.
ghost use Rattle.lines.specs.Form.{Form};
ghost use Rattle.lines.specs.Drafts.{Says};
ghost use Rattle.lines.specs.Reading.{Reached};

use crate::draft::Draft;
use crate::scan::{Front, Number, Part};
use adders::AdderList;
use forms::Scanner;

// A line as far as it is read: the first nine of its adders, and where the reader stands.
#[derive(Clone, Copy)]
pub(crate) struct Reader {
    adders: AdderList<9>,
    part: Part,
}

impl Scanner for Reader {
    type Said = Draft;

    ghost Says = { Says };

    ghost Form = { Form };

    ghost Reached = { Reached };

    #[tactic(auto, using(crate::proofs::Steps::reached_start))]
    fn start() -> Reader {
        Reader {
            adders: AdderList::new(),
            part: Part::Key(0),
        }
    }

    fn step(mut self, byte: u8) -> Option<Reader> {
        self.advance(byte)?;
        Some(self)
    }

    // A step changes the adders only where one is whole, so they stay where they are.
    #[tactic(auto, using(crate::proofs::Steps::step_on))]
    fn advance(&mut self, byte: u8) -> Option<()> {
        if let Some(adder) = self.part.advance(byte)? {
            // a draft keeps nine: those past them are let go
            let _ = self.adders.push_within_capacity(adder);
            self.part = Part::Body(Front::Nothing, Number::Empty);
        }
        Some(())
    }

    fn end(self) -> Option<Draft> {
        Some(Draft::new(self.adders, self.part.end()?))
    }

    ghost said = { λ bs draft says. (says.all, draft.shift, says.line) };

    ghost viable = { λ bs reader reached. reached.viable };
}

// Reads a line of the form.
ghost use Rattle.std.specs.Prelude.{◌≡◌, ◌≤◌, length, MatchResult};
ghost use Rattle.forms.specs.Breaking.{BrokenAt};
ghost use Rattle.lines.specs.Form.{Form, OneReading};
ghost use Rattle.lines.specs.Drafts.{Says};

use super::Draft;
use crate::reader::Reader;
use adders::{Adder, AdderList};
use forms::FormError;

impl Draft {
    // What the line says, or the first byte after which no line of the form can follow, the length where it stops short.
    pub fn read(line: &[u8]) -> Result<Draft, FormError>
        ensures { MatchResult result (λ d. Says line.now d) (λ e. BrokenAt Form line.now e.place) }
    {
        forms::read::<Reader>(line)
    }

    // The first nine adders of the line, in its order.
    pub fn adders(&self) -> &[Adder]
        ensures adders { result.now ≡ self.now.adders }
        ensures few { length result.now ≤ 9 }
    {
        self.adders.as_slice()
    }

    // The output shift of the line.
    pub fn shift(&self) -> u8
        ensures { result ≡ self.now.shift }
    {
        self.shift
    }

    pub(crate) fn new(adders: AdderList<9>, shift: u8) -> Draft
        ensures adders { result.adders ≡ adders }
        ensures shift { result.shift ≡ shift }
    {
        // that a list of nine has at most nine is told by its length
        let _few = adders.len();
        Draft { adders, shift }
    }
}

// A line of the form says one list of adders and one output shift, and writing these gives the line; a broken line has one place.
#[tactic(auto, using(crate::proofs::Readings::one_reading))]
pub fn lines_have_one_reading()
    ensures { OneReading }
{}

// Why a call is turned down: one type for the whole generator. Each case has a number and a place.
ghost use Rattle.std.specs.Prelude.{◌≡◌, Some};
ghost use Rattle.adders.specs.Refusals.{refusal_entry, fault_entry, refusal_text, line_refusal_text};
ghost use Rattle.adders.specs.declared.refusals.Refusal.TheVariants.{BrokenForm};

use forms::FormError;
use std::error::Error;
use std::fmt;

// Which rule a row of a wiring sheet breaks, with the adder's number, 0 for the output.
#[derive(Clone, Copy, Debug, PartialEq, Eq)]
pub enum RowFault {
    // the output reads an adder that is empty, or does not read one that is filled
    NotAsRead(usize),
    // an operand or a value leaves 1 to 2,147,483,647
    OutOfRange(usize),
}

// The lines of a sheet, the adders of a chain and the steps of a catalogue count from 1, bytes of a line and taps from 0.
#[derive(Clone, Copy, Debug, PartialEq, Eq)]
pub enum Refusal {
    // a chain line has more than 200 bytes
    LineTooLong,
    // a line breaks its form at this byte
    BrokenForm(usize),
    // a chain has more than 8 adders
    TooManyAdders,
    // a shift leaves 0 to 30 at this adder, or at the output for 0
    ShiftOutOfRange(usize),
    // this adder reads a source that is not lower than itself, or the output, for 0, an adder that a row has no slot for
    SourceNotLower(usize),
    // an operand or the value of this adder, or of the output for 0, leaves 1 to 2,147,483,647
    ValueOutOfRange(usize),
    // no later adder of a chain reads this one, and it is not the last
    AdderUnread(usize),
    // this adder of a row is empty though the output reads it, directly or through others, or filled though it does not
    AdderNotAsRead(usize),
    // a select code above 15
    CodeAboveFifteen,
    // a select code that has a row already
    CodeLive,
    // a chain has more adders than the block, or a row uses one that the block has not
    BlockTooSmall,
    // a select code that has no row
    CodeIdle,
    // a row does not use this adder
    AdderUnused,
    // a shift move by less than -30 or more than 30
    AmountOutOfRange,
    // a sample width outside 1 to 32
    WidthOutOfRange,
    // an input and an output buffer of different lengths
    LengthsDiffer,
    // a unit price above 1,000
    UnitTooHigh,
    // an adder of both kinds is cheaper than one that only adds or only subtracts
    BothTooCheap,
    // a buffer is shorter than the sheet, which has this many bytes
    BufferTooShort(usize),
    // a sheet has more than 4,096 bytes
    SheetTooLong,
    // a line of a sheet breaks its form or its order, is cut short or missing
    SheetForm(usize),
    // a line of a sheet has a number out of its limits or too many inputs
    SheetLimit(usize),
    // a port line names one input twice
    InputRepeated(usize),
    // a row selects an input that its port lacks
    InputAbsent(usize),
    // the row that this line selects breaks a rule of rows
    RowBroken(usize, RowFault),
    // a port line has an input that no row selects
    InputUnselected(usize),
    // a price of this step of a catalogue is above 60,000
    StepTooHigh(usize),
    // a price of this step of a catalogue is below that of the step before it
    StepFalls(usize),
    // at this step of a catalogue an adder of both kinds is cheaper than one that only adds or only subtracts
    StepBothTooCheap(usize),
    // a constant outside 1 to 65,535
    ConstantOutOfRange,
    // this live code gives the constant already, and no lower one does
    ConstantTaken(usize),
    // a filter has no tap, or more than 64
    TapCountOutOfRange,
    // a filter's input and output buffers have different lengths
    FilterLengthsDiffer,
    // this tap of a filter, counted from 0, has a code that is idle or above 15
    TapIdle(usize),
    // a set of shifts changes the sum of a path
    PathSumChanged,
    // a sample outside -8,388,480 to 8,388,479
    SampleOutOfRange,
    // a code that is reserved
    CodeReserved,
    // the code of a slip that is not reserved at this place
    CodeNotReserved,
    // a place that has a reserved code
    PlaceReserved,
}

impl RowFault {
    // The number of the rule that is broken.
    pub fn number(self) -> u8
        ensures { result ≡ (fault_entry self).number }
    {
        match self {
            RowFault::NotAsRead(_) => 16,
            RowFault::OutOfRange(_) => 15,
        }
    }

    // The adder where it is broken, or 0 for the output.
    pub fn place(self) -> usize
        ensures { result ≡ (fault_entry self).place }
    {
        match self {
            RowFault::NotAsRead(adder) | RowFault::OutOfRange(adder) => adder,
        }
    }
}

impl Refusal {
    // The number by which the cause is known outside.
    pub fn number(self) -> u8
        ensures { result ≡ (refusal_entry self).number }
    {
        match self {
            Refusal::LineTooLong | Refusal::BrokenForm(_) => 11,
            Refusal::TooManyAdders => 12,
            Refusal::ShiftOutOfRange(_) => 13,
            Refusal::SourceNotLower(_) => 14,
            Refusal::ValueOutOfRange(_) => 15,
            Refusal::AdderUnread(_) | Refusal::AdderNotAsRead(_) => 16,
            Refusal::CodeAboveFifteen => 20,
            Refusal::CodeLive => 21,
            Refusal::BlockTooSmall => 22,
            Refusal::CodeIdle => 23,
            Refusal::AdderUnused => 24,
            Refusal::AmountOutOfRange => 25,
            Refusal::WidthOutOfRange => 26,
            Refusal::LengthsDiffer => 27,
            Refusal::UnitTooHigh => 28,
            Refusal::BothTooCheap => 29,
            Refusal::BufferTooShort(_) => 31,
            Refusal::SheetTooLong => 40,
            Refusal::SheetForm(_) => 41,
            Refusal::SheetLimit(_) => 42,
            Refusal::InputRepeated(_) => 43,
            Refusal::InputAbsent(_) => 44,
            Refusal::RowBroken(_, _) => 45,
            Refusal::InputUnselected(_) => 46,
            Refusal::StepTooHigh(_) => 51,
            Refusal::StepFalls(_) => 52,
            Refusal::StepBothTooCheap(_) => 53,
            Refusal::ConstantOutOfRange => 54,
            Refusal::ConstantTaken(_) => 55,
            Refusal::TapCountOutOfRange => 56,
            Refusal::FilterLengthsDiffer => 57,
            Refusal::TapIdle(_) => 58,
            Refusal::PathSumChanged => 59,
            Refusal::SampleOutOfRange => 60,
            Refusal::CodeReserved => 61,
            Refusal::CodeNotReserved => 62,
            Refusal::PlaceReserved => 63,
        }
    }

    // Where the cause was met, 0 for a cause that has no place.
    pub fn place(self) -> usize
        ensures { result ≡ (refusal_entry self).place }
    {
        match self {
            Refusal::LineTooLong => 200,
            Refusal::TooManyAdders => 9,
            Refusal::BrokenForm(byte) => byte,
            Refusal::ShiftOutOfRange(adder)
            | Refusal::SourceNotLower(adder)
            | Refusal::ValueOutOfRange(adder)
            | Refusal::AdderUnread(adder)
            | Refusal::AdderNotAsRead(adder) => adder,
            Refusal::BufferTooShort(length) => length,
            Refusal::RowBroken(line, _) => line,
            Refusal::SheetForm(line)
            | Refusal::SheetLimit(line)
            | Refusal::InputRepeated(line)
            | Refusal::InputAbsent(line)
            | Refusal::InputUnselected(line) => line,
            Refusal::StepTooHigh(step)
            | Refusal::StepFalls(step)
            | Refusal::StepBothTooCheap(step) => step,
            Refusal::ConstantTaken(code) => code,
            Refusal::TapIdle(tap) => tap,
            _ => 0,
        }
    }

    // The same, with the line of an input where it was met.
    pub fn at_line(self, line: usize) -> LineRefusal
        ensures { (result.refusal ≡ self) × (result.line ≡ line) }
    {
        LineRefusal {
            refusal: self,
            line,
        }
    }
}

impl From<FormError> for Refusal {
    ghost from_gives = { λ e r. r ≡ BrokenForm e.place };

    fn from(error: FormError) -> Refusal {
        Refusal::BrokenForm(error.place)
    }
}

// Two lines, without a line feed at the end.
impl fmt::Display for Refusal {
    ghost output = { λ r. Some (refusal_text r) };

    fn fmt<W: fmt::Write>(&self, f: &mut fmt::Formatter<W>) -> fmt::Result {
        write!(f, "fault={}\nplace={}", self.number(), self.place())
    }
}

impl Error for Refusal {}

// A refusal, with the line of an input where it was met, from 1.
#[derive(Clone, Copy)]
pub struct LineRefusal {
    pub refusal: Refusal,
    pub line: usize,
}

// Three lines, without a line feed at the end.
impl fmt::Display for LineRefusal {
    ghost output = { λ r. Some (line_refusal_text r.refusal r.line) };

    fn fmt<W: fmt::Write>(&self, f: &mut fmt::Formatter<W>) -> fmt::Result {
        let fault = self.refusal.number();
        let line = self.line;
        let place = self.refusal.place();
        write!(f, "fault={fault}\nline={line}\nplace={place}")
    }
}

// The code lines of a sheet that is read.
ghost use Rattle.std.specs.Prelude.{◌≡◌, ◌≤◌, slice_get, option_map};
ghost use Rattle.reading.specs.Orders.{lists_of};
ghost use Rattle.reading.specs.Data.{data_of};
ghost use Rattle.reading.specs.Lookup.{wired, slot_of, slots_of, row_data};
ghost use Rattle.reading.specs.Reader.{fault_of, select_row, read_row};
ghost use Rattle.reading.specs.Answers.{Gives};

use crate::lists::PortLists;
use adders::{Adder, Operand, Refusal, RowFault};
use ports::Port;
use rows::Row;
use texts::{Selection, Selections, selections};

// What breaks a rule of a row, as it is told of a sheet.
fn fault_of(refusal: Refusal) -> RowFault
    ensures { result ≡ fault_of refusal }
{
    if refusal.number() == 16 {
        RowFault::NotAsRead(refusal.place())
    } else {
        RowFault::OutOfRange(refusal.place())
    }
}

impl PortLists {
    // The input of a number in a port's line.
    fn input(&self, port: Port, number: u8) -> Option<Operand>
        ensures { result ≡ slice_get (lists_of self.now port) number }
    {
        self.at(port).as_slice().get(number as usize).copied()
    }

    // The adder that a selection wires.
    #[tactic(auto, unfolding(crate::specs::Lookup::wired))]
    fn wired(&self, adder: usize, selection: Selection) -> Option<Adder>
        ensures { result ≡ wired (lists_of self.now) adder selection }
    {
        let left = self.input(Port::Left(adder), selection.left)?;
        let right = self.input(Port::Right(adder), selection.right)?;
        Some(Adder {
            left,
            sign: selection.sign,
            right,
        })
    }

    fn slot(&self, adder: usize, selection: Option<Selection>) -> Option<Option<Adder>>
        ensures { result ≡ slot_of (lists_of self.now) adder selection }
    {
        match selection {
            Some(selection) => Some(Some(self.wired(adder, selection)?)),
            None => Some(None),
        }
    }

    // The slots of the row that a code line selects.
    fn slots(&self, selections: [Option<Selection>; 8]) -> Option<[Option<Adder>; 8]>
        ensures { result ≡ slots_of (lists_of self.now) 1 selections }
    {
        let mut slots = [None; 8];
        for (place, selection) in selections.iter().enumerate() {
            slots[place] = self.slot(place + 1, *selection)?;
        }
        Some(slots)
    }

    // The slots and the output of the row that a code line selects.
    #[tactic(auto, unfolding(crate::specs::Lookup::row_data))]
    fn selected(&self, selections: Selections) -> Option<([Option<Adder>; 8], Operand)>
        ensures { option_map (λ p. record { slots = p.0; output = p.1 }) result ≡ row_data (lists_of self.now) selections.adders selections.output }
    {
        let slots = self.slots(selections.adders)?;
        let output = self.input(Port::Output, selections.output)?;
        Some((slots, output))
    }

    // The row that a code line selects.
    #[tactic(auto, unfolding(crate::specs::Reader::select_row))]
    fn row(&self, selections: Selections, line: usize) -> Result<Row, Refusal>
        ensures { Gives data_of result (select_row (lists_of self.now) line selections.adders selections.output) }
    {
        let (slots, output) = self.selected(selections).ok_or(Refusal::InputAbsent(line))?;
        match Row::new(slots, output) {
            Ok(row) => Ok(row),
            Err(refusal) => Err(Refusal::RowBroken(line, fault_of(refusal))),
        }
    }

    // The row of a code line, after its key.
    #[tactic(auto, unfolding(crate::specs::Reader::read_row))]
    pub fn code_line<'a>(
        &self,
        text: &'a [u8],
        adders: usize,
        line: usize,
    ) -> Result<(Row, &'a [u8]), Refusal>
        requires { adders ≤ 8 }
        ensures { Gives (λ x. (data_of x.0, x.1.now)) result (read_row (lists_of self.now) adders line text.now) }
    {
        let (selections, rest) = selections(text, adders).ok_or(Refusal::SheetForm(line))?;
        let row = self.row(selections, line)?;
        Ok((row, rest))
    }
}

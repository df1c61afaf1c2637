// Writing the sheet of a block.
ghost use Rattle.std.specs.Prelude.{◌≡◌, ◌≤◌, length};
ghost use Rattle.adders.specs.declared.wiring.Adder.{Adder};
ghost use Rattle.ports.specs.Inputs.{inputs};
ghost use Rattle.ports.specs.Ports.{ports};
ghost use Rattle.reading.specs.Data.{rows_of, data_of};
ghost use Rattle.sheetlaws.specs.Sheets.{place, selection_of, selections_of, port_lines, row_lines};
ghost use Rattle.sheets.specs.Calls.{written_sheet};
ghost use Rattle.writing.specs.Writes.{Wrote};

use crate::gathered::PortInputs;
use adders::{Adder, Operand};
use blocks::Block;
use ports::Port;
use rows::Row;
use texts::{Selection, keys};
use writing::SheetText;

// The number of an input in a port's line, from 0; past the last for one that is not there.
fn place(input: Operand, inputs: &[Operand]) -> usize
    ensures { result ≡ place input inputs.now }
{
    for (number, other) in inputs.iter().enumerate() {
        if input == *other {
            return number;
        }
    }
    inputs.len()
}

// The number of an operand among the inputs of a port.
#[tactic(auto, using(crate::proofs::Selecting::number_few))]
fn number_at(lists: &PortInputs, port: Port, operand: Operand) -> u8
    ensures { result ≡ place operand (inputs lists.now.block.now port) }
{
    place(operand, lists.at(port)) as u8
}

// What a code line says of an adder.
fn selection(lists: &PortInputs, adder: usize, wiring: Option<Adder>) -> Option<Selection>
    ensures { result ≡ selection_of (inputs lists.now.block.now) adder wiring }
{
    let wiring = wiring?;
    Some(Selection {
        left: number_at(lists, Port::Left(adder), wiring.left),
        sign: wiring.sign,
        right: number_at(lists, Port::Right(adder), wiring.right),
    })
}

// What a code line says of each adder.
fn selections(lists: &PortInputs, row: &Row) -> [Option<Selection>; 8]
    ensures { result ≡ selections_of (inputs lists.now.block.now) 1 row.now.slots }
{
    let mut selections = [None; 8];
    for (place, slot) in row.slots().iter().enumerate() {
        selections[place] = selection(lists, place + 1, *slot);
    }
    selections
}

// The lines of the ports.
fn write_ports(text: &mut SheetText, lists: &PortInputs)
    ensures { Wrote text.old (port_lines (inputs lists.now.block.now) (ports lists.now.block.now.adders)) text.new }
{
    prove!(text.len() <= 4096);
    let adders = lists.block.adders();
    for place in 0..2 * adders + 1 {
        let port = Port::nth(place, adders);
        text.port_line(port, lists.at(port));
    }
}

// The lines of the live codes.
fn write_codes(text: &mut SheetText, lists: &PortInputs)
    ensures { Wrote text.old (row_lines (inputs lists.now.block.now) lists.now.block.now.adders 0 (rows_of lists.now.block.now)) text.new }
{
    prove!(text.len() <= 4096);
    let adders = lists.block.adders();
    for code in 0..16 {
        if let Ok(row) = lists.block.row(code) {
            let selections = selections(lists, &row);
            let output = number_at(lists, Port::Output, row.output());
            text.code_line(code, &selections[..adders], usize::from(output));
        }
    }
}

// The sheet of a block, each port's inputs ascending by source and then by shift.
pub fn sheet_of(block: &Block) -> SheetText
    ensures { result ≡ written_sheet block.now }
{
    let lists = PortInputs::new(block);
    let mut text = SheetText::new();
    text.number_line(keys::ADDERS, block.adders());
    text.number_line(keys::WIDTH, block.width());
    write_ports(&mut text, &lists);
    write_codes(&mut text, &lists);
    text
}

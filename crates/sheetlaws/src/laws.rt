// What holds of every sheet.
ghost use Rattle.sheetlaws.specs.SheetLaws.{SheetsAreRead, RefusalsAreTold};
ghost use Rattle.sheetlaws.specs.FaultLaw.{FaultsAreCarried, FaultsAreOfTheBlock};

// Bytes are accepted exactly if they are a sheet of some block, and as that block.
pub fn sheets_are_read()
    ensures { SheetsAreRead }
{}

// The reader's refusal is the first cause, line by line, and no other is.
#[tactic(auto, using(crate::proofs::Told::refusals_told))]
pub fn refusals_are_told()
    ensures { RefusalsAreTold }
{}

// A row that breaks a rule is told with the number and the place of its own refusal: 16 or 15, since sources and shifts were judged at the ports.
// The place is an adder from 1 to the sheet's adder count, or with 15 also 0 for the output.
pub fn faults_are_carried()
    ensures { FaultsAreCarried }
{}

// Whatever sheet is turned down for a row: the fault that is told is of a block with the adder count that its first line says.
#[tactic(auto, using(crate::proofs::Carried::faults_of_block))]
pub fn faults_are_of_the_block()
    ensures { FaultsAreOfTheBlock }
{}

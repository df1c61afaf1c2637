// What holds of the parts and the price of every block.
ghost use Rattle.pricing.specs.Laws.{PartsLaw, OneRowMore, PortStays, RowsNeverCheapen, CallsNeverCheapen};

// A width rests on the largest value that some live row has there, and a kind on the signs that live rows have there.
#[tactic(auto, using(crate::proofs::Meanings::parts_law))]
pub fn parts_are_what_rows_use()
    ensures { PartsLaw }
{}

// A row at an idle code changes each part only by what it puts there itself.
#[tactic(auto, using(crate::proofs::Adding::one_row_more))]
pub fn one_row_changes_each_part_alone()
    ensures { OneRowMore }
{}

// An operand that stands at its port already, and needs no more bits than the port has, changes nothing there.
pub fn an_operand_in_place_changes_nothing()
    ensures { PortStays }
{}

// Under every lawful list, a block with some of the rows of another costs no more.
#[tactic(auto, using(crate::proofs::Comparing::rows_never_cheapen))]
pub fn rows_never_make_a_block_cheaper()
    ensures { RowsNeverCheapen }
{}

// Retiring never makes a block dearer, and adding a row never makes it cheaper.
#[tactic(auto, using(crate::proofs::Comparing::calls_never_cheapen))]
pub fn retiring_never_makes_a_block_dearer()
    ensures { CallsNeverCheapen }
{}

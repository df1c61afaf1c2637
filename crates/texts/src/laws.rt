// What holds of every line.
ghost use Rattle.texts.specs.Laws.{Taken, ReadAgain};

// A line that is read is the text of what is answered, and no other bytes are taken.
#[tactic(auto, using(crate::proofs::Lines::taken))]
pub fn what_is_taken_is_the_text()
    ensures { Taken }
{}

// A line that is written is read again, whatever follows it: so no text begins with two lines of a kind.
#[tactic(auto, using(crate::proofs::Lines::read_again))]
pub fn what_is_written_is_read()
    ensures { ReadAgain }
{}

// What the test of reading comes to.
ghost use Rattle.rows.specs.Reading.{TestsReading};

// The test says that the output reads an adder exactly where it does, directly or through others.
#[tactic(auto, using(crate::proofs::Passing::tests_reading))]
pub fn reading_is_tested()
    ensures { TestsReading }
{}

// What holds of every port line.
ghost use Rattle.reading.specs.Limits.{LimitsAreTested};

// A port's inputs pass the test exactly if there are at most sixteen, each with a source that the port may read and a shift of at most 30.
#[tactic(auto, using(crate::proofs::Allowed::limits_tested))]
pub fn limits_are_tested()
    ensures { LimitsAreTested }
{}

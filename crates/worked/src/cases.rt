// The one list of worked cases.
ghost use Rattle.std.specs.List.{AllByRecursion};
ghost use Rattle.worked.specs.Cases.{worked, Stands};

// Each worked case has the answers that stand beside it.
#[tactic(auto, using(crate::proofs::List::all_stand))]
pub fn worked_cases_stand()
    ensures { AllByRecursion Stands worked }
{}

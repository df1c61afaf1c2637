// What holds of placements.
ghost use Rattle.placing.specs.Placements.{PlacementLaw};

// Each admissible placement leaves one block, with the chain's constant at the code, and there is one where there are adders enough.
#[tactic(auto, using(crate::proofs::Whole::placement_law))]
pub fn placements_leave_one_block()
    ensures { PlacementLaw }
{}

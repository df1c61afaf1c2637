// The worked cases: lines, samples, moves and blocks, each with its answer, held against the definitions.
#![tactic(auto)]

mod cases;

pub use cases::worked_cases_stand;

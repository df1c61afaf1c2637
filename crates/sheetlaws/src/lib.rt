// What a wiring sheet is, why bytes are none, and that the reader says so.
#![tactic(auto)]

mod laws;

pub use laws::{faults_are_carried, faults_are_of_the_block, refusals_are_told, sheets_are_read};

// What every list of calls on a block promises.
#![tactic(auto)]

mod applying;
mod laws;
mod outcome;
mod replaying;

pub use applying::{apply, apply_all};
pub use laws::{events_follow_the_book, every_history_holds};
pub use outcome::Outcome;
pub use replaying::{Replayed, Samples, replay};

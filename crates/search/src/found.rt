// What a search finds.
use crate::choices::ChoiceList;

// What a choice of all steps costs, and the choice of each.
#[derive(Clone, Copy)]
pub struct Found {
    pub price: u32,
    pub choices: ChoiceList,
}

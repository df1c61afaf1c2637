// What holds of the supplied lists.
ghost use Rattle.prices.specs.Supplied.{SuppliedListsAreLawful};

// The count list and every per-bit list are lawful.
#[tactic(auto, using(crate::specs::Supplied::supplied_lawful))]
pub fn supplied_lists_are_lawful()
    ensures { SuppliedListsAreLawful }
{}

// What holds of every call and of every list of calls.
ghost use Rattle.history.specs.Books.{EventsFollowBook};
ghost use Rattle.history.specs.Histories.{EveryHistory};

// Whatever keeps to the rules of a call keeps to the plain book too.
pub fn events_follow_the_book()
    ensures { EventsFollowBook }
{}

// Every list of calls from a place not yet founded, under any mixture of price lists.
pub fn every_history_holds()
    ensures { EveryHistory }
{}

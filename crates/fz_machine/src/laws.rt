//! Laws of portfolios: each is the clause of a function that does nothing, so that the clause is proved.
ghost use Rattle.fz_machine.specs.Portfolios.{CallsKeepLaw, RecordedSatisfy, ClosedIsBest};

/// Whatever the events and shares, and in whatever order, each core keeps its law, and so all that `event_laws` says of such cores.
pub fn calls_keep_law()
    ensures { CallsKeepLaw }
{}

/// What any of the books records satisfies the model.
pub fn recorded_satisfy()
    ensures { RecordedSatisfy }
{}

/// In a search for a best one none is better than the incumbent of a book that is closed, and where it has none, none satisfies.
pub fn closed_is_best()
    ensures { ClosedIsBest }
{}

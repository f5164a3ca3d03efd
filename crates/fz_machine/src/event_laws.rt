//! Laws of machines: each is the clause of a function that does nothing, so that the clause is proved.
ghost use Rattle.fz_machine.specs.Laws.{EventsKeepLaw, OffersKeepLaw, OpenIsHeld, EachIsOnce, QuietIsClosed, QuietListsAll, QuietListsRows, QuietIsBest};

/// Whatever the events, book, paths and accounts keep their laws, and the claimed parts are what paths and hands hold. Where a
/// best solution is sought too, with what was recorded learnt in any order, late or never.
pub fn events_keep_law()
    ensures { EventsKeepLaw }
{}

/// They keep them where the book records a better assignment that was found elsewhere.
pub fn offers_keep_law()
    ensures { OffersKeepLaw }
{}

/// What the book names as open is what paths were started with, what is in hands and what nobody has claimed, up to order.
pub fn open_is_held()
    ensures { OpenIsHeld }
{}

/// Where all are sought, or their rows, each satisfying assignment, or one of its row, is recorded, found by one path, or in one open
/// place, once in all.
pub fn each_is_once()
    ensures { EachIsOnce }
{}

/// Where no path and no hand holds anything and nothing is unclaimed, the book is closed.
pub fn quiet_is_closed()
    ensures { QuietIsClosed }
{}

/// In a search for all satisfying assignments it has each of them once then.
pub fn quiet_lists_all()
    ensures { QuietListsAll }
{}

/// In a search for all rows it has one assignment of each then.
pub fn quiet_lists_rows()
    ensures { QuietListsRows }
{}

/// In a search for a best one no satisfying assignment betters its incumbent then.
pub fn quiet_is_best()
    ensures { QuietIsBest }
{}

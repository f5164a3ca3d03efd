//! Laws that the definitions keep: each is the clause of a function that does nothing, so that the clause is proved.
ghost use Rattle.fz_tree.specs.Laws.{PairIsChoice, PairFits, InIsAtOpenPlace, InIsOnce, CutIsInParts, MovedIsSame, RowIsInAlike, AccountIsExact, ClosedListsAll, ClosedListsRows, ClosedIsBest, ClosingLowers, BranchingLowers, MovingKeeps, CuttingDivides};

/// A decision and its negation are a choice: an assignment meets at most one of the two.
pub fn pair_is_choice()
    ensures { PairIsChoice }
{}

/// That choice fits every node of a model that has the variable: no satisfying assignment is lost.
pub fn pair_fits()
    ensures { PairFits }
{}

/// Which assignments are in a frontier, in words.
pub fn in_is_at_open_place()
    ensures { InIsAtOpenPlace }
{}

/// The open places of a frontier have no assignment in common.
pub fn in_is_once()
    ensures { InIsOnce }
{}

/// Assignments that print alike are in the same frontiers that are divided by what is printed.
pub fn row_is_in_alike()
    ensures { RowIsInAlike }
{}

/// A cut parts a frontier: each of its assignments is in the part or in the rest, and in one of them alone.
pub fn cut_is_in_parts()
    ensures { CutIsInParts }
{}

/// Moving to the next alternative keeps what is in a frontier.
pub fn moved_is_same()
    ensures { MovedIsSame }
{}

/// A lawful account names each satisfying assignment of its frontier once, and no other.
pub fn account_is_exact()
    ensures { AccountIsExact }
{}

/// A lawful closed book of all satisfying assignments has each of them once.
pub fn closed_lists_all()
    ensures { ClosedListsAll }
{}

/// One of all rows has one assignment of each.
pub fn closed_lists_rows()
    ensures { ClosedListsRows }
{}

/// No satisfying assignment betters the incumbent of a lawful closed book.
pub fn closed_is_best()
    ensures { ClosedIsBest }
{}

/// Closing the place below lowers the measure of a search.
pub fn closing_lowers()
    ensures { ClosingLowers }
{}

/// So does dividing it, where each alternative is met by a declared assignment there.
pub fn branching_lowers()
    ensures { BranchingLowers }
{}

/// Moving to the next alternative keeps the measure.
pub fn moving_keeps()
    ensures { MovingKeeps }
{}

/// A cut divides the measure between the part and the rest.
pub fn cutting_divides()
    ensures { CuttingDivides }
{}

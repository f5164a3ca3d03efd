//! What is begun can be ended, and what the text of a whole run says of the model.
ghost use Rattle.fzn.specs.Begun.{BegunCanEnd};
ghost use Rattle.fzn.specs.Whole.{NothingExactly, AllAreOne, BlocksDiffer, BlocksSatisfy, LastIsBest, BlocksAreRows};

/// After the blocks of solutions that a run has begun with, bytes can follow that make the text of a whole run of it.
pub fn begun_can_end()
    ensures { BegunCanEnd }
{}

/// The unsatisfiable line stands exactly where nothing satisfies.
pub fn nothing_exactly()
    ensures { NothingExactly }
{}

/// Two runs for all solutions list the same up to order, and two for each row once the same rows.
pub fn all_are_one()
    ensures { AllAreOne }
{}

/// Two blocks of a run without a goal are of two assignments, or of two rows.
pub fn blocks_differ()
    ensures { BlocksDiffer }
{}

/// Each block is of an assignment that satisfies.
pub fn blocks_satisfy()
    ensures { BlocksSatisfy }
{}

/// The last block of a run with a goal is of a best assignment.
pub fn last_is_best()
    ensures { LastIsBest }
{}

/// Two assignments of a model print the same block exactly where their rows are equal.
pub fn blocks_are_rows()
    ensures { BlocksAreRows }
{}

//! Laws that the definitions keep: each is the clause of a function that does nothing, so that the clause is proved.
ghost use Rattle.fz_part.specs.Laws.{WithPartIsInPart, WholeIsPart, PartsList, BetterIsBetter};
ghost use Rattle.fz_part.specs.Laws.{TaskIsInPart, BetterThanIsBetter};

/// An assignment satisfies a model with a part exactly where it satisfies the model and is in the part.
pub fn with_part_is_in_part()
    ensures { WithPartIsInPart }
{}

/// The model itself is a part.
pub fn whole_is_part()
    ensures { WholeIsPart }
{}

/// The satisfying assignments of all parts together are those of the model, each once.
pub fn parts_list()
    ensures { PartsList }
{}

/// An assignment satisfies a model with a bound exactly where it satisfies the model and its goal's term has a better value.
pub fn better_is_better()
    ensures { BetterIsBetter }
{}

/// An assignment satisfies a task exactly where it satisfies the model, is in the part, and is better than the bound, where there
/// is one.
pub fn task_is_in_part()
    ensures { TaskIsInPart }
{}

/// To be better than the value of an assignment is to be better than that assignment.
pub fn better_than_is_better()
    ensures { BetterThanIsBetter }
{}

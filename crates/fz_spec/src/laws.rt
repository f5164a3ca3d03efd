//! Laws that the definitions keep: each is the clause of a function that does nothing, so that the clause is proved.
ghost use Rattle.fz_spec.specs.Laws.{SatisfyingIsDeclared, NothingListed};

/// An assignment that satisfies a model has one number for each variable, each in its declared set.
pub fn satisfying_is_declared()
    ensures { SatisfyingIsDeclared }
{}

/// The empty list is the list of a model's satisfying assignments exactly where there is none.
pub fn nothing_listed()
    ensures { NothingListed }
{}

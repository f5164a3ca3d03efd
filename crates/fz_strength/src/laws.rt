//! Laws that the definitions keep: each is the clause of a function that does nothing, so that the clause is proved.
ghost use Rattle.fz_strength.specs.Laws.{IsSaid, KeptWhereQuiet, SizesOfSets, TrueWhereAlone};

/// A line lasts as domains get narrower, while none of the changes happens that may break it.
pub fn kept_where_quiet()
    ensures { KeptWhereQuiet }
{}

/// Where one number is left of each variable, a line says that the constraint is true.
pub fn true_where_alone()
    ensures { TrueWhereAlone }
{}

/// A constraint is true exactly where what it says is.
pub fn says()
    ensures { IsSaid }
{}

/// The bounds of an absolute value are the least and the greatest size that is left.
pub fn sizes_of_sets()
    ensures { SizesOfSets }
{}

//! Laws of counts: each is the clause of a function that does nothing, so that the clause is proved.
ghost use Rattle.fz_path.specs.Commits.{StepsAreShort, StepsBelowAreShort, PartsAreBelow, StepsStayBelow};

/// A step takes no more decisions than the greatest of three numbers: the commit distance, a 31st of the most edges that the path
/// has had, and how many edges it was started with. By the default distance of 8 the second counts from 279 edges on.
pub fn steps_are_short()
    ensures { StepsAreShort }
{}

/// It takes no more than the greater of the first two where all that is left is below what the path was started with.
pub fn steps_below_are_short()
    ensures { StepsBelowAreShort }
{}

/// All that is left of a part that a cut gives is below its last node, where choices are between two.
pub fn parts_are_below()
    ensures { PartsAreBelow }
{}

/// What is left below a node stays below it from step to step.
pub fn steps_stay_below()
    ensures { StepsStayBelow }
{}

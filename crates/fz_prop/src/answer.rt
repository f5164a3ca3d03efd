//! What a run of a propagator answers.
ghost use Rattle.std.specs.Prelude.{◌≡◌};
ghost use Rattle.fz_prop.specs.Outcomes.{rested_by, settled_by};

use fz_dom::Change;

/// What became of a store in a run of a propagator.
#[derive(Clone, Copy, Debug, PartialEq, Eq)]
pub enum Answer {
    /// Its line holds.
    Fix,
    /// It removed a value, and is to run again.
    NoFix,
    /// Every assignment within the store makes true what it says.
    Subsumed,
    /// No assignment within the store makes true what it says.
    Failed,
}

impl Answer {
    /// The answer of a run that changed one term, where no more is said than which numbers the term keeps.
    pub fn settled(change: Change) -> Answer
        ensures { result ≡ settled_by change }
    {
        match change {
            Change::Wiped => Answer::Failed,
            Change::Same | Change::Changed => Answer::Subsumed,
        }
    }

    /// The answer of a run after which the line holds, and holds for good where this is true.
    pub fn rested(for_good: bool) -> Answer
        ensures { result ≡ rested_by for_good }
    {
        if for_good {
            Answer::Subsumed
        } else {
            Answer::Fix
        }
    }
}

//! Propagators.
ghost use Rattle.std.specs.Prelude.{List, length};
ghost use Rattle.std.specs.List.{AllByRecursion};
ghost use Rattle.fz_strength.specs.Promises.{Suits};
ghost use Rattle.fz_strength.specs.Sayings.{Saying, line_of, said_terms, truth_of};
ghost use Rattle.fz_prop.specs.Answers.{Narrows};
ghost use Rattle.fz_strength.specs.Domains.{IsTermOf};

use crate::answer::Answer;
use crate::store::Store;
use std::alloc::AllocError;

/// What narrows a store by what is said. It removes no number of an assignment that makes this true.
///
/// Which line holds where it rests, what it waits for and what it costs is told by what it says.
pub trait Propagator: Drop + Sized {
    ghost saying: { Self → Saying };

    /// Narrows a store.
    ///
    /// # Errors
    /// `AllocError` where there is no memory for a domain; the store is then narrower, and no assignment is lost.
    fn propagate(&self, store: &mut Store) -> Result<Answer, AllocError>
        requires terms { AllByRecursion (IsTermOf (length store.old.doms))
            (said_terms (saying self.now)) }
        requires suits { Suits (saying self.now) store.old.doms }
        ensures { Narrows (truth_of (saying self.now)) (line_of (saying self.now)) result
            store.old store.new };
}

//! What a book has let go of. It takes no memory, and its methods do nothing at run time.
ghost use Rattle.std.specs.Prelude.{◌≡◌, ℤ, List, [], ◌++◌};
ghost use Rattle.std.specs.Borrow.{ftrue};

use fz_model::Assignment;
use std::marker::Model;

/// Assignments that only contracts and proofs see, in the order in which they were recorded.
#[derive(Drop)]
pub(crate) struct Past {
    pub ghost items: { List (List ℤ) },
}

impl Model for Past {
    ghost also_owns = { λ _. ftrue };
}

// It owns nothing.
unsafe impl Send for Past {}

impl Past {
    pub(crate) fn new() -> Past
        ensures { result.items ≡ [] }
    {
        Past {}
    }

    /// These after those.
    pub(crate) fn with(&self, _more: &Vec<Assignment>) -> Past
        ensures { result.items ≡ self.now.items ++ _more.now.items }
    {
        Past {}
    }
}

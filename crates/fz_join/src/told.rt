//! Bytes that only contracts and proofs see.
ghost use Rattle.std.specs.Prelude.{◌≡◌, ℕ, List, [], ◌++◌};
ghost use Rattle.std.specs.Borrow.{ftrue};

use std::marker::Model;

/// Bytes that were read or printed. They take no memory, and the methods do nothing at run time.
#[derive(Drop)]
pub(crate) struct Told {
    pub ghost bytes: { List ℕ },
}

impl Model for Told {
    ghost also_owns = { λ _. ftrue };
}

// It owns nothing.
unsafe impl Send for Told {}

impl Told {
    pub(crate) fn new() -> Told
        ensures { result.bytes ≡ [] }
    {
        Told {}
    }

    /// These behind those.
    pub(crate) fn with(&self, _more: &[u8]) -> Told
        ensures { result.bytes ≡ self.now.bytes ++ _more.now }
    {
        Told {}
    }
}

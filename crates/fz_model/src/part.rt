//! What the parts of a model have in common.
ghost use Rattle.std.specs.Prelude.{◌≡◌, ◌↔◌, IfOk, IsTrue};

use std::alloc::{AllocError, Global};

/// A part of a model, which can be copied and compared.
pub trait Part: Sized + Drop {
    /// Another one of the same value.
    fn copy(&self) -> Result<Self, AllocError>
        ensures { IfOk result (λ copy. copy ≡ self.now) };

    /// Whether the two are of the same value.
    fn same(&self, other: &Self) -> bool
        ensures { IsTrue result ↔ (self.now ≡ other.now) };
}

/// Copies of the parts, in order.
pub(crate) fn copies<T: Part>(alloc: Global, parts: &[T]) -> Result<Vec<T>, AllocError>
    ensures { IfOk result (λ copies. copies.items ≡ parts.now) }
{
    let mut copies = Vec::with_capacity(alloc, parts.len())?;
    for part in parts {
        copies.push(part.copy()?)?;
    }
    Ok(copies)
}

/// Whether the two lists have the same parts.
pub(crate) fn are_same<T: Part>(these: &[T], those: &[T]) -> bool
    ensures { IsTrue result ↔ (these.now ≡ those.now) }
{
    if these.len() != those.len() {
        return false;
    }
    for (i, this) in these.iter().enumerate() {
        if !this.same(&those[i]) {
            return false;
        }
    }
    true
}

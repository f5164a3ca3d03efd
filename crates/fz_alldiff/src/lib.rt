//! The propagator of terms that are all different.
//!
//! Up to 64 numbers apart, one window loses each fixed number, in two passes a round, until no place gets fixed anew. Wider,
//! the numbers of the fixed places leave the others in one pass; those of places that get fixed anew, one at a time. Terms at both
//! ends that no other may equal are passed by.
#![tactic(auto)]

pub mod all_different;
mod close;
pub mod differ;
mod ends;
mod far;
mod settled;
mod span;

pub use all_different::AllDifferent;
pub use differ::keep_different;

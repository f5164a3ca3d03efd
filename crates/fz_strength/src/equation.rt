//! Equations on all numbers of their terms.

/// How many pairs of numbers of two terms are few, so that each is looked at.
pub const FEW_PAIRS: u64 = 4096;

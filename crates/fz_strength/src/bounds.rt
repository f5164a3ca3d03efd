//! Bounds of terms.
use fz_spec::term::Term;

/// A term, and the least and the greatest number that it may have.
#[derive(Clone, Copy, Debug, PartialEq, Eq)]
pub struct Bounds {
    pub term: Term,
    pub low: i64,
    pub high: i64,
}

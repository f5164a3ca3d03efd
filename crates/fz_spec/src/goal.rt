//! Goals.
use crate::term::Term;

/// What is searched for: an assignment that satisfies, or one that gives a term the least or the greatest value.
#[derive(Clone, Copy, Debug, PartialEq, Eq)]
pub enum Goal {
    Satisfy,
    Minimize(Term),
    Maximize(Term),
}

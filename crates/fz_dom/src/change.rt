//! What became of a domain.

/// What became of a domain that was to keep only some of its numbers.
#[derive(Clone, Copy, PartialEq, Eq, Debug)]
pub enum Change {
    /// All of them stay.
    Same,
    /// Some left, and some stay.
    Changed,
    /// None would stay; the domain is left as it was.
    Wiped,
}

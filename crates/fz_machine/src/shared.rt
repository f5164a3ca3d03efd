//! What becomes of what is shared.

/// What came of an incumbent that was shared.
#[derive(Clone, Copy, Debug, PartialEq, Eq)]
pub enum Shared {
    /// It is better than the other book's, and recorded there as well.
    Better,
    /// There is none, or it isn't better.
    NotBetter,
}

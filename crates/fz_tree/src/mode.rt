//! Modes.

/// What a search is after: all satisfying assignments; of those that print alike one each, by the row of what they print; or one that
/// none betters.
#[derive(Clone, Copy, Debug, PartialEq, Eq)]
pub enum Mode {
    All,
    Rows,
    Best,
}

//! How a search ends.

/// How a search ends.
#[derive(Clone, Copy, Debug, PartialEq, Eq)]
pub enum Ending {
    /// All that was asked for is printed.
    Complete,
    /// No assignment satisfies.
    Unsatisfiable,
    /// As many as were asked for are printed, and nothing is said of others.
    Plain,
}

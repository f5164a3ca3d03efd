//! Steps.

/// What a step did.
#[derive(Clone, Copy, Debug, PartialEq, Eq)]
pub enum Step {
    /// A node was closed as hopeless, or divided.
    Expanded,
    /// An assignment was found.
    Found,
    /// Nothing is left.
    Closed,
    /// The path holds no frontier.
    Idle,
}

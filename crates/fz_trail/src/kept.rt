//! Kept copies of spaces.

/// The most copies that stand beside a path.
pub const COPIES_MOST: usize = 64;

/// How many edges below a node that a path came back to each node gets a copy.
pub const CLOSE: usize = 8;

/// The space of a node, and how many edges are above the node.
#[derive(Drop)]
pub struct Kept<S> {
    pub depth: usize,
    pub space: S,
}

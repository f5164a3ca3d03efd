//! What a join lacks.

/// Why what was read can't be joined.
#[derive(Clone, Copy, Debug, PartialEq, Eq)]
pub enum Lack {
    /// It isn't the whole texts of runs of the parts: one is cut off, or a line is of no run.
    CutOff,
    /// The part of this place, counted from 0, has no text, or more than one.
    Part(usize),
    /// A run was to better a value that no run shows.
    Bound,
    /// A block is of no solution, though each variable is shown.
    NoSolution,
}

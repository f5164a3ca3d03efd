//! Refusals.

/// Why and where a text is refused: a code from 1 to 11, and the line and column of the place, both counted from 1.
#[derive(Clone, Copy, Debug, PartialEq, Eq)]
pub struct Refusal {
    pub code: u8,
    pub line: u32,
    pub column: u32,
}

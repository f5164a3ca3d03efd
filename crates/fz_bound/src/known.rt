//! What a seat knows.

/// The least number that was put through a seat, the word as it was last seen, and the seat's parts of 65. No value of it is made.
pub struct Known {
    pub least: u64,
    pub seen: u64,
    pub parts: u64,
}

//! Leaves.

/// An identifier: its bytes, and its place.
#[derive(Clone, Copy, Debug)]
pub struct Name<'a> {
    pub bytes: &'a [u8],
    pub at: u32,
}

/// An integer literal: its value, and its place.
#[derive(Clone, Copy, Debug)]
pub struct Integer {
    pub value: i32,
    pub at: u32,
}

//! Words of bits, each the set of the places of its ones, and windows of 64 numbers. Sets of numbers are kept as words, 64
//! numbers to each.
#![tactic(auto)]

mod bit_set;
mod chunk;
mod window;
pub mod word;

pub use bit_set::BitSet;
pub use chunk::Chunk;
pub use window::Window;

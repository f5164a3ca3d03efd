//! The least number that threads have put, in one word.
#![tactic(auto)]

pub mod bound;
pub mod known;
mod rule;
pub mod seat;

pub use bound::Bound;
pub use seat::Seat;

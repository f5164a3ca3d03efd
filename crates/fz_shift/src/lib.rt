//! Equations of a few variables on whole domains. A sum with the factors 1 and -1 keeps of each variable the numbers that have
//! a partner in the other. A sum of three terms does so if two of its variables are at most 64 wide: for each number of one, a
//! word has the numbers that the others may then be.
#![tactic(auto)]

pub mod difference;
mod far;
mod keeping;
mod matching;
pub mod plane;
mod shape;

pub use difference::{Difference, difference_of, keep_above_by, keep_apart_by};
pub use plane::{Plane, keep_plane};
pub use shape::plane_of;

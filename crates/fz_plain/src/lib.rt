//! Plainer forms of what is said. A relation of a variable to itself is decided, and equal terms of a sum or an operation are
//! added up. A sum that is always or never related so to a number is decided by the divisor of its factors.
#![tactic(auto)]

mod decided;
mod divisor;
mod equations;
mod gather;
mod itself;
mod operands;
pub mod plain;
mod repeats;
mod sums;

pub use plain::{Plain, plain_of};

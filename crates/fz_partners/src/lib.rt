//! The propagator of an equation of two or three terms that looks at all of their numbers. A run pairs the numbers of the two
//! terms with fewer, up to 4,096 pairs. Each pair asks the third term for the one number that makes the sum.
#![tactic(auto)]

mod equation;
mod found;
mod keep;
mod numbers;
pub mod partnered_sum;
mod solutions;

pub use partnered_sum::PartneredSum;

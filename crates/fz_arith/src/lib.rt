//! The propagator of terms of which one is what an operation makes of the others: a sum, a product, an absolute value, the
//! least or the greatest. It keeps each term between bounds that the ends of the others give (Apt, Zoeteweij: "An Analysis of
//! Arithmetic Constraints on Integer Intervals"), in 64 bits.
//!
//! 0 leaves a divisor first. A factor is bounded by the product and the other factor if that one has one sign. A number whose
//! absolute value is known is kept on one side.
#![tactic(auto)]

pub mod arithmetic;
mod bounds;
mod ends;
mod extremes;
mod factors;
mod narrow;
mod products;
mod sized;

pub use arithmetic::Arithmetic;

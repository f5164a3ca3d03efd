//! Propagators of linear equations, disequations and orders (Schulte, Stuckey: "When do bounds and domain propagation lead to
//! the same search space?").
//!
//! One pass gives the ends of a sum and the width of its widest term; if that fits into the slack of each side, no term is
//! looked at again. Sums whose factors add up to 2^31 at most are added in 64 bits, others in 128. Fixed terms at the start of
//! a long sum are passed, with their sum kept. A sum runs until it changes nothing. One related to a variable has that variable
//! as first term.
#![tactic(auto)]

mod apart;
mod bounded;
pub mod front;
pub mod linear;
pub mod narrow;
mod pass;
mod reach;
pub mod relate;
mod shape;
mod side;
pub mod sums;

pub use linear::Linear;

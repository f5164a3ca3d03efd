//! The propagator of linear equations, disequations and orders with a Boolean that says whether they hold. If the ends of the
//! sum decide, the Boolean is fixed; if it is fixed, the sum is narrowed by the constraint or by its opposite.
#![tactic(auto)]

mod decide;
mod follow;
mod front;
pub mod reified;

pub use reified::ReifiedLinear;

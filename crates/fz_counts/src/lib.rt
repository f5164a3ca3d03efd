//! The propagator of the numbers of places that have values (global cardinality).
//!
//! A run passes the terms once for each value of the cover, and tells how many are sure to have it and how many may. The count keeps to
//! these. Where it can't be more, or less, the places that may have the value and needn't go without it, or have it. Where nothing changed
//! so, all counts are looked at together: their sum is the number of places that have a value of the cover. Nothing is allocated.
#![tactic(auto)]

mod count;
mod counts;
mod cover;
mod ends;
pub mod global_cardinality;
mod mixed;
mod places;
mod standing;
mod tally;
mod whole;

pub use global_cardinality::GlobalCardinality;

//! Propagators of comparisons and of terms in sets (Schulte, Tack, Lagerkvist: "Modeling and Programming with Gecode", "Rel").
//!
//! An equation of two variables keeps of each the numbers of the other. A reified comparison runs the comparison or its
//! opposite if the Boolean is fixed. Else it fixes the Boolean as soon as the ends decide; equality is also decided by words
//! without a common bit. `set_in_reif` keeps the numbers outside its set, made once from its gaps.
#![tactic(auto)]

mod apart;
pub mod comparison;
mod ends;
mod equal;
pub mod member;
mod order;
mod others;
pub mod reified;
pub mod reified_member;
mod relate;
mod seen;

pub use comparison::Comparison;
pub use member::Membership;
pub use reified::ReifiedComparison;
pub use reified_member::ReifiedMembership;

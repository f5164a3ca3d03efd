//! Stores and propagators (Schulte, Stuckey: "Efficient Constraint Propagation Engines"). A store is a domain for each variable
//! and the changes in the order in which they came; a propagator narrows it by what it says, and promises what a run leaves.
//!
//! Each changed variable is listed with a mark: fixed, an end moved, or another number left. A change makes room in the list
//! first, so if memory is refused nothing has changed. What is taken leaves the list, which stays at most twice as long as
//! there are variables.
#![tactic(auto)]

pub mod answer;
mod cut;
pub mod ends;
pub mod indices;
pub mod kept;
pub mod matching;
pub mod propagator;
pub mod store;
pub mod terms;

pub use answer::Answer;
pub use ends::count_of;
pub use fz_dom::Change;
pub use fz_strength::cost::Cost;
pub use fz_strength::event::Event;
pub use kept::Kept;
pub use propagator::Propagator;
pub use store::Store;

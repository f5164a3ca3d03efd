//! Branching: which variable a search divides, and how (Schulte, Tack, Lagerkvist: "Modeling and Programming with Gecode",
//! "Branching"). A plan follows the search parts of a model in order; after them come all variables in order of declaration,
//! the least value first. The last part is looked at from the first variable that may be open.
#![tactic(auto)]

pub mod choose;
pub mod laws;
mod pick;
pub mod plan;
mod rising;
mod shown;
mod value;

pub use choose::choose_among;
pub use plan::Plan;

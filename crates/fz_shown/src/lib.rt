//! Whether a block that was printed is of a solution, in a model of which each variable is shown.
#![tactic(auto)]

mod guess;
pub mod shown;
pub mod solution;
mod told;
mod word;

pub use shown::shows_all;
pub use solution::is_solution;

//! Parts of a model, by which one search runs on many machines: decisions on its variables, and their text (Régin, Rezgui,
//! Malapert: "Embarrassingly Parallel Search"). What a part is stands in `specs/`, with the model of a part, which has its
//! decisions as constraints.
#![tactic(auto)]

pub mod laws;
pub mod part;
mod print;
mod read;
pub mod refusal;
pub mod task;
mod word;

pub use fz_tree::decision::{Comparison, Decision};
pub use part::Part;
pub use refusal::Refusal;
pub use task::task_of;

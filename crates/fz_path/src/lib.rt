//! Paths: one worker's depth-first search of a frontier, with recomputation (Schulte, Tack, Lagerkvist: "Modeling and
//! Programming with Gecode", "Recomputation").
//!
//! What a path holds is an account of the frontier that it was started with. The space of a node is remade from the nearest
//! copy above it by the taken decisions, and covers exactly these. With `--distinct` the tree is divided by what is printed,
//! and a node where that is fixed is decided by a search below it, which ends at the first solution.
#![tactic(auto)]

mod beginning;
mod due;
mod expand;
pub mod laws;
mod near;
pub mod path;
mod plans;
mod rows;
pub mod start;
pub mod step;
pub mod task;

pub use due::{is_report_due, pays_report};
pub use fz_trail::Steps;
pub use path::Path;
pub use start::Start;
pub use step::Step;
pub use task::{Cut, Near, Task};

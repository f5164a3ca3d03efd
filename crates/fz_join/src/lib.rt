//! Joins what runs of the parts of a model printed into what a run of the whole model prints (Régin, Rezgui, Malapert:
//! "Embarrassingly Parallel Search"). The texts are read by lines: blocks are passed on as they come, of a best one the block alone
//! is held. What a join says stands in `specs/`: `Joins` for runs and their texts, `Joining` for the answers.
#![tactic(auto)]

pub mod join;
pub mod lack;
mod machine;
pub mod parts;
mod reader;
mod tally;
mod told;
mod words;

pub use join::Join;
pub use lack::Lack;
pub use parts::{Misplaced, parts_of};

//! `fzn`, a constraint solver, as a call over any source and sink: it reads one FlatZinc text and prints its solutions
//! (MiniZinc Handbook, "FlatZinc"). What it promises is the contract of `fzn`.
//!
//! `program` is the program: the call over the real files and streams, and a line on standard error for each answer but `Done`.
#![tactic(auto)]

pub mod command;
pub mod complaint;
mod frame;
pub mod laws;
mod part;
pub mod run;
mod split;
pub mod status;
mod steps;

pub use command::program;
pub use complaint::complaint_of;
pub use fz_reader::model_of;
pub use run::{alone, fzn};
pub use status::{Misfit, Status};

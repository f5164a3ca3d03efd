//! A printer of solutions: it takes accounts of a search into a book of its own, and prints what the book took.
//!
//! What it prints goes to a sink a piece at a time: blocks, the closing line, the summary of a generated model, statistics and
//! refusals.
#![tactic(auto)]

pub mod collecting;
pub mod printer;
pub mod printing;

pub use collecting::{hand_on_if_due, has_stopped, is_filled};
pub use printer::Printer;
pub use printing::{Stop, print_blocks, print_end, print_refusal, print_run, put};

//! `fzcheck`, a checker of what `fzn` or another solver printed, as a call over any source and sink. It reads a FlatZinc text
//! and an output with a certificate, and says whether the output proves. What it promises is the contract of `fzcheck`.
//!
//! It stands on the reader and the definitions, and on no propagation and no search.
#![tactic(auto)]

pub mod command;
pub mod run;
pub mod status;

pub use command::program;
pub use run::fzcheck;
pub use status::CheckStatus;

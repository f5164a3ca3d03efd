//! `fzjoin`, which joins what runs of parts of a model printed into what a run of the whole model prints, as a call over any source
//! and sink. What it promises is the contract of `fzjoin`.
#![tactic(auto)]

pub mod command;
pub mod prepare;
pub mod run;
pub mod status;
pub mod texts;

pub use command::program;
pub use run::fzjoin;
pub use status::JoinStatus;

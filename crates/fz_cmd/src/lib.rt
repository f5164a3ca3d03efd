//! What the words of a command line mean, by clap's own rules for a simple command without help and version. Each number lies
//! within its bounds.
#![tactic(auto)]

mod command;
pub mod name;
pub mod options;
mod reading;
pub mod words;

pub use name::Name;
pub use options::Options;

//! Cases as text, for programs that try others: the lines of a case, what a call answers, and whether that is what the case says.
#![tactic(auto)]

pub mod answer;
pub mod case;
pub mod report;

pub use answer::Answer;
pub use case::Case;
pub use report::Report;

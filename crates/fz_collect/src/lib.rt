//! What several workers report while they search: an outbox, and the loop that hands each report to a collector.
#![tactic(auto)]

pub mod collect;
pub mod gathering;
pub mod outbox;
pub mod subject;

pub use collect::{Collect, News};
pub use gathering::gather;
pub use outbox::{Outbox, Told};
pub use subject::{OwnAccount, Solution, Subject};

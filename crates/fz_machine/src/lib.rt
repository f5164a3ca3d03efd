//! Several workers that search one tree on one thread: each event of one of them is a call, and a schedule says whose turn it
//! is. An event is to claim, start, step, report, steal or learn.
//!
//! What an event makes of workers and book is a definition (`specs/Cores.antt`), so any order of events is a list, and the laws
//! hold of every list. Each claimed part of the book is in the hand or the path of one worker. So nothing is lost and nothing is
//! searched twice, and where no worker holds anything and nothing is unclaimed, the book is closed.
//!
//! A portfolio is several machines of one model. Each searches the whole tree by its own plan, and their books share incumbents.
#![tactic(auto)]

pub mod event;
pub mod event_laws;
pub mod laws;
pub mod machine;
pub mod portfolio;
pub mod run;
pub mod schedule;
pub mod shared;
mod slot;

pub use event::{Answer, Event, Outcome};
pub use machine::Machine;
pub use portfolio::Portfolio;
pub use shared::Shared;

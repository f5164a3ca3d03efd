//! Books: what is recorded of a model's satisfying assignments, and which frontiers of its search tree are open.
//!
//! The law of books stands in fz_tree and holds of every book. In a search for all satisfying assignments each is recorded or
//! in one open frontier, once in all. In a search for the best one so is each that betters the incumbent. So a book with
//! nothing open is complete. What is printed is let go of.
#![tactic(auto)]

pub mod book;
pub mod end;
pub mod offered;
mod part;
mod past;
mod record;
pub mod taken;

pub use book::Book;
pub use end::{End, has_enough};
pub use offered::Offered;
pub use taken::Taken;

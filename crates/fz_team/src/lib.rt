//! Several threads that search one tree: each has a path behind a lock of its own, and all have one book behind another.
//!
//! The bound that they share is one atomic word. An idle worker looks, then locks the book and cuts a part from another, with a
//! copy of a space near it. What is found waits in an outbox, which one loop prints. A portfolio has several books, of which each
//! has the whole tree open, and workers of its own; what is better goes to all.
#![tactic(auto)]

mod assets;
mod crew;
pub mod end;
mod event;
pub mod member;
pub mod own;
mod rest;
mod score;
pub mod section;
mod team;
mod work;

pub use assets::portfolio;
pub use end::{End, PortfolioEnd, TeamEnd};
pub use own::{OwnBook, OwnPath};
pub use team::{run, run_own};

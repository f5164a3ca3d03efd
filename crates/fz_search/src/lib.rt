//! The search of a model by the options: by one worker, by several that take turns, or by several in threads. With what is
//! shown of the book that it leaves. Several assets each search by a plan of their own.
#![tactic(auto)]

mod assets;
pub mod searching;
pub mod team;

pub use searching::{Listing, Tally, listing_of, search, tally_of};
pub use team::search_in_threads;

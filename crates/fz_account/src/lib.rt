//! Accounts of a frontier: what of it was found, what was given to others, and what is left.
//!
//! The law of accounts stands in fz_tree and holds of every account. In a search for all satisfying assignments each of the
//! frontier is, once, found, in a part that was given, or in what is left. In a search for the best one so is each that betters
//! the witness.
#![tactic(auto)]

pub mod account;

pub use account::{Account, Cut, Learned, Parts, Unbegun};
pub use fz_tree::mode::Mode;

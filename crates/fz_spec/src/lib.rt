//! What fzn promises, as definitions that the contracts of the other crates cite: what a model means, and what a run prints.
//! How a text is read stands in fz_language.
//!
//! The definitions stand in `specs/`. Here are the enums that code and definitions share, and the laws that the definitions
//! keep.
#![tactic(auto)]

pub mod asked;
pub mod builtin;
pub mod code;
pub mod goal;
pub mod kind;
pub mod laws;
pub mod limits;
pub mod row;
pub mod search;
pub mod shape;
pub mod term;

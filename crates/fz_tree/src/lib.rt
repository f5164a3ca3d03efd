//! What a search does to a tree, as definitions: decisions, choices, what is open, what a worker found, and what is recorded in
//! all. A frontier is the part of the tree that is open, an account what a worker has found and left of it, a book what is
//! recorded and open in all.
//!
//! The definitions stand in `specs/`. Here are the types that code and definitions share, and the laws that the definitions
//! keep.
#![tactic(auto)]

pub mod decision;
pub mod laws;
pub mod mode;

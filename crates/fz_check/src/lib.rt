//! The rules of a FlatZinc program: names, types, lengths and limits (fzn's own rules; the types are those of the MiniZinc
//! Handbook, "FlatZinc"). A program that keeps them is a model; else the first rule that its first item breaks is reported,
//! with the place.
//!
//! The whole fault of an item is computed, in the order of the rules. A row of the table of constraints is found by binary
//! search. That the model of a program that keeps all rules is one that `Model::new` takes is a law about definitions alone.
#![tactic(auto)]

mod call;
pub mod checker;
mod declared;
mod draft;
mod entered;
mod faults;
mod goal;
pub mod laws;
mod parts;
mod rows;

pub use checker::check;
pub use fz_resolve::Fault;

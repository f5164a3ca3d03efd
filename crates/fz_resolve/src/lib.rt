//! What the expressions and declarations of a FlatZinc program are, one by one. That is what names stand for, the places of
//! unknown ones, the arguments, sets and index ranges that are written, and which rule an item breaks.
#![tactic(auto)]

pub mod annotations;
pub mod arrays;
pub mod entry;
pub mod fault;
pub mod names;
pub mod resolve;
pub mod rules;

pub use arrays::{NumberList, TermList};
pub use entry::Entry;
pub use fault::{Fault, fault_at};
pub use names::Names;

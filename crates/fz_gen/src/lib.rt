//! A model that is generated: a knapsack of that many items. The law that its text is accepted is the clause of a function that
//! does nothing, so that the clause is proved.
#![tactic(auto)]

pub mod laws;
pub mod text;

pub use text::knapsack;

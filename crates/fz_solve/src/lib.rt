//! What the annotations of a solve item ask of the search (MiniZinc Handbook, "FlatZinc", "Search annotations").
#![tactic(auto)]

pub mod search;

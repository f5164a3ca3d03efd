//! Splitting a model into parts for many machines, of about one depth (Régin, Rezgui, Malapert: "Embarrassingly Parallel
//! Search"): the open node of least depth is divided first, by the model's plan, and what propagation closes is dropped.
//!
//! A node is kept by its decisions alone, and its space is made anew from the root's. Where a choice has more alternatives than
//! there is room for, the domain of its variable is halved instead.
#![tactic(auto)]

mod division;
mod nodes;
mod remade;
mod splitting;

pub use splitting::split;

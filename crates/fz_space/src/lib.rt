//! Spaces: the domains that a model's constraints leave below some decisions, narrowed by propagators until all rest (Schulte,
//! Tack, Lagerkvist: "Modeling and Programming with Gecode").
#![tactic(auto)]

mod bound;
mod commit;
mod contents;
mod next;
mod rest;
mod root;
mod settled;
pub mod space;

pub use space::Space;

//! Running the propagators of a model until all rest (Schulte, Stuckey: "Efficient Constraint Propagation Engines"). The
//! cheapest class runs first, and in a class who came first.
#![tactic(auto)]

pub mod engine;
pub mod network;
mod stronger;

pub use network::Network;

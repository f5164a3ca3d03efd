//! The propagator of tasks that share a bounded resource, by the profile of what each is sure to use (Beldiceanu, Carlsson: "A
//! new multi-resource cumulatives constraint with negative heights"; Gay, Hartert, Schaus: "Simple and scalable time-table
//! filtering for the cumulative constraint").
//!
//! The profile of compulsory parts is looked at where parts begin. A blocked start moves past the whole stretch that blocks it.
//! When these rest, what tasks use in each window from an earliest start to a latest end is added up (energetic reasoning):
//! more than fits means that no assignment is left.
#![tactic(auto)]

pub mod cumulative;
mod energy;
mod finding;
mod narrow;
mod profile;
mod starting;
mod tasks;

pub use cumulative::Cumulative;
pub use energy::lacks_energy;
pub use narrow::keep_shared;
pub use tasks::open_tasks;

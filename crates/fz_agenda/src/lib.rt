//! Which propagators of a space are idle, queued or gone, and what that says of their lines (Schulte, Stuckey: "Efficient
//! Constraint Propagation Engines"). The definitions stand in `specs/`, with the laws that they keep; here are the queues, and
//! who is woken by which change.
//!
//! For each variable and kind of change there are words of bits over propagators: `bits & alive & !queued` is whom a change
//! wakes. Queues are lists by class of cost, first in, first out. Elements are woken only for terms at indices that are left.
#![tactic(auto)]

pub mod agenda;
pub mod draining;
pub mod laws;
mod members;
pub mod queue;
mod states;
pub mod wakes;
pub mod watches;

pub use agenda::Agenda;
pub use draining::{drain, drain_but};
pub use wakes::Wakes;
pub use watches::Watch;

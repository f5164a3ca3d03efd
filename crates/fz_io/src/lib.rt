//! What a run reads from, prints to and is watched by: sources, sinks and gates, in memory and outside.
//!
//! A source tells the bytes that it has left, and a sink the bytes that it took, where they can be known. Each counts
//! its faults, and a call answers that it failed exactly where the count rose.
#![tactic(auto)]

mod buffer;
pub mod buffered;
mod calls;
pub mod file;
pub mod gate;
pub mod memory_sink;
pub mod memory_source;
pub mod output;
pub mod outside;
pub mod paced;
pub mod sure_sink;
pub mod sure_source;
pub mod texts;
pub mod whole;

//! The spaces beside a path: the root's, copies at some of its nodes, and the current one. A node's space is remade from the
//! nearest copy above it by the taken decisions (Schulte: "Comparing trailing and copying for constraint programming"; Gecode's
//! `search/seq/path.hh`).
//!
//! A copy is kept if none stands within the commit distance above, or a 64th of the way up to the root, at a node that the path
//! came back to, and at those up to seven edges below it. A node that is remade by several decisions gets a copy in the middle of
//! the way. Where 64 copies stand, the one whose neighbours stand nearest to each other goes before another is kept.
#![tactic(auto)]

pub mod kept;
pub mod steps;
pub mod trail;

pub use kept::Kept;
pub use steps::Steps;
pub use trail::Trail;

//! Regions of a search tree: decisions, choices, and the frontier of what is open (Schulte, Tack, Lagerkvist: "Modeling and
//! Programming with Gecode", "Search"). A frontier is a path of edges from the root; at each edge the alternatives after the
//! taken one are open, up to a last. What it means stands in fz_tree.
//!
//! Edges that are settled stand in shared pieces of 256, so a copy takes a pointer a piece. A cut takes half of the
//! alternatives after the taken one at the edge nearest to the root.
#![tactic(auto)]

pub mod choice;
pub mod edge;
pub mod edges;
pub mod frontier;
pub mod pieces;
pub mod places;
pub mod tail;
pub mod value;

pub use choice::Choice;
pub use edge::Edge;
pub use edges::Edges;
pub use frontier::Frontier;
pub use fz_tree::decision::{Comparison, Decision};

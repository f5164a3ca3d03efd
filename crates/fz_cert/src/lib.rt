//! The checker of certificates: whether an output proves that its last block is best, or that no assignment satisfies. The
//! boxes, walks and lines of certificates stand here, too, for what makes them.
//!
//! A certificate is a tree of boxes: a box is refuted by a constraint's sum, by trying at most 256 choices, or split at a
//! number. The checker guesses each line, prints it and compares. It stands on the definitions, on domains and models, and on
//! the judge of constraints; on no propagation and no search.
#![tactic(auto)]

pub mod area;
pub mod checker;
pub mod ends;
mod guess;
mod half;
pub mod refute;
mod small;
pub mod step;
pub mod text;
mod tree;
pub mod variables;
pub mod walk;
mod word;

pub use area::Area;
pub use checker::check;
pub use refute::refutes;

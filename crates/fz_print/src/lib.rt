//! What a run prints, byte for byte: a block, the closing line, and the text of a refusal (MiniZinc Handbook, "Output").
#![tactic(auto)]

pub mod block;
pub mod ending;
pub mod refusal;
pub mod trailer;

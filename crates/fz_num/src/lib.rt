//! Arithmetic on bounds: spans of whole numbers, whose results are the smallest spans, and rounded quotients. All of it is in
//! 128 bits, where nothing overflows within the sizes that each function names.
#![tactic(auto)]

mod quotient;
mod span;

pub use quotient::{ceil_div, floor_div};
pub use span::Span;

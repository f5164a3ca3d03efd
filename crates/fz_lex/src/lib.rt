//! The tokens of a text of the language, one after another, or its first fault.
//!
//! A text is read once, from its first byte on, in time linear in what is read, and no list of its tokens is made. What a token
//! is and what a fault is is defined in fz_language.
#![tactic(auto)]

mod blanks;
mod lexeme;
pub mod lexer;
mod number;
pub mod place;
mod reading;
mod run;
mod spelling;

pub use lexer::{LexFault, Lexer};
pub use place::{Place, place_of};

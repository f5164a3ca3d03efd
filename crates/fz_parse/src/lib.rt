//! The syntax of a FlatZinc text (MiniZinc Handbook, "FlatZinc grammar"): the program that its tokens spell, or its first
//! fault. A fault is the first one of the tokens, or the place from which no program goes on, or the first bracket over the
//! limit of nesting.
//!
//! There is a function for each rule of the grammar, which takes the tokens of the rule from the lexer and gives its tree. One
//! token of look-ahead chooses the alternative. Nothing calls itself but the arguments of annotations, to the limit of nesting.
#![tactic(auto)]

mod annotation;
mod constraint;
mod declaration;
mod expression;
mod list;
pub mod parser;
mod predicate;
mod program;
mod steps;
mod stop;
mod value_type;

pub use parser::{ParseFault, TextFault, parse};

//! The language, as definitions that the reader's contracts cite: its tokens, its grammar, and how a text is read. The language
//! is the integer part of FlatZinc (MiniZinc Handbook, "FlatZinc and the MiniZinc Challenge"); where the handbook leaves a
//! choice, the rule is fzn's own and says so.
//!
//! The definitions stand in `specs/`. Here are the enums that code and definitions share, the laws that the definitions keep,
//! and how some texts are read.
#![tactic(auto)]

pub mod examples;
pub mod fault;
pub mod keyword;
pub mod laws;
pub mod limits;
pub mod sign;
pub mod token_kind;

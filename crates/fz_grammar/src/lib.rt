//! Grammars as data: rules, the typed trees that they build, how one token of look-ahead reads them, and where a text is at
//! fault. What holds of every grammar is proved here once, from tables that computation checks.
//!
//! The definitions stand in `specs/`, the laws in `proofs/`; there is no code.
#![tactic(auto)]

//! The reader as a whole: from a text to its model, or to the refusal of a text that breaks a rule, with the place.
#![tactic(auto)]

pub mod reader;

pub use reader::model_of;

//! The propagators of an index into a list, of numbers or of terms. Of numbers, one pass over the indices that are left makes two
//! sets: the indices whose number is left, and these numbers. Of terms, each place gives a word of the numbers that its term may be,
//! and the one term that is left takes the value's domain. Up to 64 wide the sets are windows.
#![tactic(auto)]

pub mod element;
mod far;
mod matches;
mod near;
mod near_matches;
mod numbers;
mod pairs;
mod select;
mod select_term;
pub mod variable_element;
mod words;

pub use element::Element;
pub use variable_element::VariableElement;

//! Cases of the crates below that are no texts, with answers worked out by hand. They are tests of what no clause says: that
//! its words mean what is meant, and that calls succeed with ample memory.
#![tactic(auto)]

#[cfg(test)]
mod numbers;
#[cfg(test)]
mod outside;

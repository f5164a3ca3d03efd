//! Kinds of variables.

/// What the values of a variable are: Booleans, written as 0 and 1, or whole numbers.
#[derive(Clone, Copy, Debug, PartialEq, Eq)]
pub enum Kind {
    Bool,
    Int,
}

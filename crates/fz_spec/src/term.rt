//! Terms.

/// A number, or a variable by its number.
#[derive(Clone, Copy, Debug, PartialEq, Eq)]
pub enum Term {
    Num(i32),
    Var(u32),
}

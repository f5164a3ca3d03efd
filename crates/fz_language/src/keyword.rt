//! Words of the language.

/// A word that is no identifier (MiniZinc Handbook, "FlatZinc grammar").
#[derive(Clone, Copy, Debug, PartialEq, Eq)]
pub enum Keyword {
    Array,
    Bool,
    Constraint,
    False,
    Float,
    Int,
    Maximize,
    Minimize,
    Of,
    Predicate,
    Satisfy,
    Set,
    Solve,
    True,
    Var,
}

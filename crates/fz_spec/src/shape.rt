//! What constraints say, whatever their names are.

/// How two numbers are related.
#[derive(Clone, Copy, Debug, PartialEq, Eq)]
pub enum Relation {
    Equal,
    NotEqual,
    AtMost,
    Below,
}

/// What an operation makes of numbers.
#[derive(Clone, Copy, Debug, PartialEq, Eq)]
pub enum Operation {
    /// The sum of two.
    Plus,
    /// The product of two.
    Times,
    /// The quotient of one by another, truncated towards zero.
    Quotient,
    /// What that quotient leaves.
    Remainder,
    /// The absolute value of one.
    Abs,
    /// The least of one or more.
    Min,
    /// The greatest of one or more.
    Max,
}

/// What constraints of a kind say, in Gecode's words. `specs/Constraints.antt` says when each is true. With one Boolean more a
/// constraint says that this one is 1 exactly where that is so.
#[derive(Clone, Copy, Debug)]
pub enum Shape {
    /// Two terms are related so.
    Rel(Relation),
    /// A term is in a set.
    Dom,
    /// A weighted sum is related so to a term.
    Linear(Relation),
    /// One of some Booleans is 1, or one of others 0.
    Clause,
    /// One of some Booleans is 1.
    Or,
    /// All of them are 1.
    And,
    /// An odd number of them are 1.
    Xor,
    /// A term is what an operation makes of others.
    Arithmetic(Operation),
    /// What stands in a list at an index is a term.
    Element,
    /// Terms are a row of a table.
    Extensional,
    /// No two terms are equal.
    Distinct,
    /// Tasks never use more together than a bound.
    Cumulative,
    /// An automaton accepts a list of terms.
    Regular,
    /// Terms are the numbers of places that have the values of a cover.
    Counts,
    /// Of two lists of terms each is the inverse of the other.
    Inverse,
}

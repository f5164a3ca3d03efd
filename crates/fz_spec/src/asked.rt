//! What constraints ask of their arguments.
use crate::kind::Kind;

/// What a value, or each element of a list, is asked to be: a Boolean or an integer, and whether a variable serves too.
#[derive(Clone, Copy, Debug, PartialEq, Eq)]
pub struct Element {
    pub kind: Kind,
    pub may_vary: bool,
}

/// What an argument is asked to be.
#[derive(Clone, Copy, Debug, PartialEq, Eq)]
pub enum Asked {
    /// One value.
    One(Element),
    /// A list, each element of which is so.
    List(Element),
    /// A set of integers.
    Set,
}

/// What is asked of the lengths of a constraint's lists.
#[derive(Clone, Copy, Debug, PartialEq, Eq)]
pub enum Lengths {
    /// Nothing.
    Any,
    /// All lists are as long as the first.
    Equal,
    /// The first list isn't empty, and the second is cut into rows of its length.
    Rows,
    /// All lists behind the first are equally long.
    Behind,
    /// The first list is followed by numbers of states and of symbols, at least one of each, and a list as long as their product.
    Automaton,
}

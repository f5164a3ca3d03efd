//! The syntax trees of a FlatZinc text (MiniZinc Handbook, "FlatZinc grammar"). There is a type for each rule of the grammar,
//! with a field for each part of the rule that says something.
//!
//! A leaf is a name, which is its bytes, an integer, or a mark. Each has its place, `at`: the count of bytes of the text before
//! it. The definitions of `fz_language` have the same trees; `specs/Trees.antt` says which tree stands for which.
//!
//! What is seen of them before any name is known stands here too: floats, what types of declarations ask for, and how much more
//! a program may declare.
#![tactic(auto)]

pub mod annotation;
pub mod expression;
pub mod floats;
pub mod item;
pub mod leaf;
pub mod limits;
pub mod program;
pub mod types;
pub mod value_type;

pub use annotation::{Annotation, Argument, Nested, first_at, first_of, only_of};
pub use expression::{Basic, Elements, Expression, ListLiteral, Number, SetLiteral};
pub use item::{
    ArrayItem, ConstraintItem, Index, Item, ParameterItem, PredicateItem, PredicateParameter,
    VariableItem,
};
pub use leaf::{Integer, Name};
pub use limits::Room;
pub use program::{Method, Program, SolveItem};
pub use value_type::{Plain, ValueType};

//! The model of a FlatZinc text, and assignments of its variables (MiniZinc Handbook, "FlatZinc").
//!
//! Each type is to contracts the value that `fz_spec` defines: a `Model` is an instance, an `Assignment` a list of whole
//! numbers. What a type keeps, as that numbers lie within the limits, its constructors ask for and its readers hand out.
//!
//! A set or an array that several constraints name stands once, behind a counted pointer. That the elements of an array lie in
//! the set of its type is the array's list and the set; such a constraint is found by its number, by binary search.
#![tactic(auto)]

pub mod assignment;
pub mod constraint;
pub mod constraints;
pub mod listed;
pub mod model;
pub mod output;
pub mod part;
pub mod search;
pub mod text;
pub mod variable;

pub use assignment::{Assignment, value_of};
pub use constraint::{Argument, Constraint};
pub use constraints::{ConstraintAt, Constraints};
pub use fz_spec::goal::Goal;
pub use fz_spec::kind::Kind;
pub use fz_spec::term::Term;
pub use listed::Listed;
pub use model::Model;
pub use output::Output;
pub use part::Part;
pub use search::SearchPart;
pub use text::Text;
pub use variable::Variable;

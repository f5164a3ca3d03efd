//! The table of constraints.
ghost use Rattle.std.specs.Prelude.{◌≡◌, ◌<◌, length, map, slice_index_or};
ghost use Rattle.fz_spec.specs.declared.shape.Shape.TheVariants.{Distinct};

use crate::asked::{Asked, Element, Lengths};
use crate::builtin::Builtin;
use crate::kind::Kind;
use crate::shape::{Operation, Relation, Shape};

/// The lists of arguments that a constraint may have.
pub type Signatures = &'static [&'static [Asked]];

/// What a constraint asks and says: its name, the constraint, its signatures, what is asked of the lengths of its lists, and the shape
/// of what it says.
pub type Row = (&'static [u8], Builtin, Signatures, Lengths, Shape);

/// A Boolean, or a Boolean or a variable of that kind; the same of integers; lists of these; a set of integers.
const BOOLEAN: Asked = Asked::One(Element {
    kind: Kind::Bool,
    may_vary: false,
});

const BOOLEAN_TERM: Asked = Asked::One(Element {
    kind: Kind::Bool,
    may_vary: true,
});

const INTEGER: Asked = Asked::One(Element {
    kind: Kind::Int,
    may_vary: false,
});

const INTEGER_TERM: Asked = Asked::One(Element {
    kind: Kind::Int,
    may_vary: true,
});

const BOOLEANS: Asked = Asked::List(Element {
    kind: Kind::Bool,
    may_vary: false,
});

const BOOLEAN_TERMS: Asked = Asked::List(Element {
    kind: Kind::Bool,
    may_vary: true,
});

const INTEGERS: Asked = Asked::List(Element {
    kind: Kind::Int,
    may_vary: false,
});

const INTEGER_TERMS: Asked = Asked::List(Element {
    kind: Kind::Int,
    may_vary: true,
});

const SET: Asked = Asked::Set;

/// A row for each constraint, by rising names.
pub const ROWS: [Row; 55] = [
    (
        b"all_different_int",
        Builtin::AllDifferentInt,
        &[&[INTEGER_TERMS]],
        Lengths::Any,
        Shape::Distinct,
    ),
    (
        b"array_bool_and",
        Builtin::ArrayBoolAnd,
        &[&[BOOLEAN_TERMS, BOOLEAN_TERM]],
        Lengths::Any,
        Shape::And,
    ),
    (
        b"array_bool_element",
        Builtin::ArrayBoolElement,
        &[&[INTEGER_TERM, BOOLEANS, BOOLEAN_TERM]],
        Lengths::Any,
        Shape::Element,
    ),
    (
        b"array_bool_or",
        Builtin::ArrayBoolOr,
        &[&[BOOLEAN_TERMS, BOOLEAN_TERM]],
        Lengths::Any,
        Shape::Or,
    ),
    (
        b"array_bool_xor",
        Builtin::ArrayBoolXor,
        &[&[BOOLEAN_TERMS]],
        Lengths::Any,
        Shape::Xor,
    ),
    (
        b"array_int_element",
        Builtin::ArrayIntElement,
        &[&[INTEGER_TERM, INTEGERS, INTEGER_TERM]],
        Lengths::Any,
        Shape::Element,
    ),
    (
        b"array_int_maximum",
        Builtin::ArrayIntMaximum,
        &[&[INTEGER_TERM, INTEGER_TERMS]],
        Lengths::Any,
        Shape::Arithmetic(Operation::Max),
    ),
    (
        b"array_int_minimum",
        Builtin::ArrayIntMinimum,
        &[&[INTEGER_TERM, INTEGER_TERMS]],
        Lengths::Any,
        Shape::Arithmetic(Operation::Min),
    ),
    (
        b"array_var_bool_element",
        Builtin::ArrayVarBoolElement,
        &[&[INTEGER_TERM, BOOLEAN_TERMS, BOOLEAN_TERM]],
        Lengths::Any,
        Shape::Element,
    ),
    (
        b"array_var_int_element",
        Builtin::ArrayVarIntElement,
        &[&[INTEGER_TERM, INTEGER_TERMS, INTEGER_TERM]],
        Lengths::Any,
        Shape::Element,
    ),
    (
        b"bool2int",
        Builtin::Bool2Int,
        &[&[BOOLEAN_TERM, INTEGER_TERM]],
        Lengths::Any,
        Shape::Rel(Relation::Equal),
    ),
    (
        b"bool_and",
        Builtin::BoolAnd,
        &[&[BOOLEAN_TERM, BOOLEAN_TERM, BOOLEAN_TERM]],
        Lengths::Any,
        Shape::And,
    ),
    (
        b"bool_clause",
        Builtin::BoolClause,
        &[&[BOOLEAN_TERMS, BOOLEAN_TERMS]],
        Lengths::Any,
        Shape::Clause,
    ),
    (
        b"bool_clause_reif",
        Builtin::BoolClauseReif,
        &[&[BOOLEAN_TERMS, BOOLEAN_TERMS, BOOLEAN_TERM]],
        Lengths::Any,
        Shape::Clause,
    ),
    (
        b"bool_eq",
        Builtin::BoolEq,
        &[&[BOOLEAN_TERM, BOOLEAN_TERM]],
        Lengths::Any,
        Shape::Rel(Relation::Equal),
    ),
    (
        b"bool_eq_reif",
        Builtin::BoolEqReif,
        &[&[BOOLEAN_TERM, BOOLEAN_TERM, BOOLEAN_TERM]],
        Lengths::Any,
        Shape::Rel(Relation::Equal),
    ),
    (
        b"bool_le",
        Builtin::BoolLe,
        &[&[BOOLEAN_TERM, BOOLEAN_TERM]],
        Lengths::Any,
        Shape::Rel(Relation::AtMost),
    ),
    (
        b"bool_le_reif",
        Builtin::BoolLeReif,
        &[&[BOOLEAN_TERM, BOOLEAN_TERM, BOOLEAN_TERM]],
        Lengths::Any,
        Shape::Rel(Relation::AtMost),
    ),
    (
        b"bool_lin_eq",
        Builtin::BoolLinEq,
        &[&[INTEGERS, BOOLEAN_TERMS, INTEGER_TERM]],
        Lengths::Equal,
        Shape::Linear(Relation::Equal),
    ),
    (
        b"bool_lin_le",
        Builtin::BoolLinLe,
        &[&[INTEGERS, BOOLEAN_TERMS, INTEGER]],
        Lengths::Equal,
        Shape::Linear(Relation::AtMost),
    ),
    (
        b"bool_lt",
        Builtin::BoolLt,
        &[&[BOOLEAN_TERM, BOOLEAN_TERM]],
        Lengths::Any,
        Shape::Rel(Relation::Below),
    ),
    (
        b"bool_lt_reif",
        Builtin::BoolLtReif,
        &[&[BOOLEAN_TERM, BOOLEAN_TERM, BOOLEAN_TERM]],
        Lengths::Any,
        Shape::Rel(Relation::Below),
    ),
    (
        b"bool_not",
        Builtin::BoolNot,
        &[&[BOOLEAN_TERM, BOOLEAN_TERM]],
        Lengths::Any,
        Shape::Rel(Relation::NotEqual),
    ),
    (
        b"bool_or",
        Builtin::BoolOr,
        &[&[BOOLEAN_TERM, BOOLEAN_TERM, BOOLEAN_TERM]],
        Lengths::Any,
        Shape::Or,
    ),
    (
        b"bool_xor",
        Builtin::BoolXor,
        &[
            &[BOOLEAN_TERM, BOOLEAN_TERM],
            &[BOOLEAN_TERM, BOOLEAN_TERM, BOOLEAN_TERM],
        ],
        Lengths::Any,
        Shape::Rel(Relation::NotEqual),
    ),
    (
        b"fzn_all_different_int",
        Builtin::FznAllDifferentInt,
        &[&[INTEGER_TERMS]],
        Lengths::Any,
        Shape::Distinct,
    ),
    (
        b"fzn_cumulative",
        Builtin::FznCumulative,
        &[&[INTEGER_TERMS, INTEGER_TERMS, INTEGER_TERMS, INTEGER_TERM]],
        Lengths::Equal,
        Shape::Cumulative,
    ),
    (
        b"fzn_global_cardinality",
        Builtin::FznGlobalCardinality,
        &[&[INTEGER_TERMS, INTEGERS, INTEGER_TERMS]],
        Lengths::Behind,
        Shape::Counts,
    ),
    (
        b"fzn_inverse",
        Builtin::FznInverse,
        &[&[INTEGER_TERMS, INTEGER_TERMS]],
        Lengths::Equal,
        Shape::Inverse,
    ),
    (
        b"fzn_regular",
        Builtin::FznRegular,
        &[&[INTEGER_TERMS, INTEGER, INTEGER, INTEGERS, INTEGER, SET]],
        Lengths::Automaton,
        Shape::Regular,
    ),
    (
        b"fzn_table_bool",
        Builtin::FznTableBool,
        &[&[BOOLEAN_TERMS, BOOLEANS]],
        Lengths::Rows,
        Shape::Extensional,
    ),
    (
        b"fzn_table_int",
        Builtin::FznTableInt,
        &[&[INTEGER_TERMS, INTEGERS]],
        Lengths::Rows,
        Shape::Extensional,
    ),
    (
        b"int_abs",
        Builtin::IntAbs,
        &[&[INTEGER_TERM, INTEGER_TERM]],
        Lengths::Any,
        Shape::Arithmetic(Operation::Abs),
    ),
    (
        b"int_div",
        Builtin::IntDiv,
        &[&[INTEGER_TERM, INTEGER_TERM, INTEGER_TERM]],
        Lengths::Any,
        Shape::Arithmetic(Operation::Quotient),
    ),
    (
        b"int_eq",
        Builtin::IntEq,
        &[&[INTEGER_TERM, INTEGER_TERM]],
        Lengths::Any,
        Shape::Rel(Relation::Equal),
    ),
    (
        b"int_eq_reif",
        Builtin::IntEqReif,
        &[&[INTEGER_TERM, INTEGER_TERM, BOOLEAN_TERM]],
        Lengths::Any,
        Shape::Rel(Relation::Equal),
    ),
    (
        b"int_le",
        Builtin::IntLe,
        &[&[INTEGER_TERM, INTEGER_TERM]],
        Lengths::Any,
        Shape::Rel(Relation::AtMost),
    ),
    (
        b"int_le_reif",
        Builtin::IntLeReif,
        &[&[INTEGER_TERM, INTEGER_TERM, BOOLEAN_TERM]],
        Lengths::Any,
        Shape::Rel(Relation::AtMost),
    ),
    (
        b"int_lin_eq",
        Builtin::IntLinEq,
        &[&[INTEGERS, INTEGER_TERMS, INTEGER]],
        Lengths::Equal,
        Shape::Linear(Relation::Equal),
    ),
    (
        b"int_lin_eq_reif",
        Builtin::IntLinEqReif,
        &[&[INTEGERS, INTEGER_TERMS, INTEGER, BOOLEAN_TERM]],
        Lengths::Equal,
        Shape::Linear(Relation::Equal),
    ),
    (
        b"int_lin_le",
        Builtin::IntLinLe,
        &[&[INTEGERS, INTEGER_TERMS, INTEGER]],
        Lengths::Equal,
        Shape::Linear(Relation::AtMost),
    ),
    (
        b"int_lin_le_reif",
        Builtin::IntLinLeReif,
        &[&[INTEGERS, INTEGER_TERMS, INTEGER, BOOLEAN_TERM]],
        Lengths::Equal,
        Shape::Linear(Relation::AtMost),
    ),
    (
        b"int_lin_ne",
        Builtin::IntLinNe,
        &[&[INTEGERS, INTEGER_TERMS, INTEGER]],
        Lengths::Equal,
        Shape::Linear(Relation::NotEqual),
    ),
    (
        b"int_lin_ne_reif",
        Builtin::IntLinNeReif,
        &[&[INTEGERS, INTEGER_TERMS, INTEGER, BOOLEAN_TERM]],
        Lengths::Equal,
        Shape::Linear(Relation::NotEqual),
    ),
    (
        b"int_lt",
        Builtin::IntLt,
        &[&[INTEGER_TERM, INTEGER_TERM]],
        Lengths::Any,
        Shape::Rel(Relation::Below),
    ),
    (
        b"int_lt_reif",
        Builtin::IntLtReif,
        &[&[INTEGER_TERM, INTEGER_TERM, BOOLEAN_TERM]],
        Lengths::Any,
        Shape::Rel(Relation::Below),
    ),
    (
        b"int_max",
        Builtin::IntMax,
        &[&[INTEGER_TERM, INTEGER_TERM, INTEGER_TERM]],
        Lengths::Any,
        Shape::Arithmetic(Operation::Max),
    ),
    (
        b"int_min",
        Builtin::IntMin,
        &[&[INTEGER_TERM, INTEGER_TERM, INTEGER_TERM]],
        Lengths::Any,
        Shape::Arithmetic(Operation::Min),
    ),
    (
        b"int_mod",
        Builtin::IntMod,
        &[&[INTEGER_TERM, INTEGER_TERM, INTEGER_TERM]],
        Lengths::Any,
        Shape::Arithmetic(Operation::Remainder),
    ),
    (
        b"int_ne",
        Builtin::IntNe,
        &[&[INTEGER_TERM, INTEGER_TERM]],
        Lengths::Any,
        Shape::Rel(Relation::NotEqual),
    ),
    (
        b"int_ne_reif",
        Builtin::IntNeReif,
        &[&[INTEGER_TERM, INTEGER_TERM, BOOLEAN_TERM]],
        Lengths::Any,
        Shape::Rel(Relation::NotEqual),
    ),
    (
        b"int_plus",
        Builtin::IntPlus,
        &[&[INTEGER_TERM, INTEGER_TERM, INTEGER_TERM]],
        Lengths::Any,
        Shape::Arithmetic(Operation::Plus),
    ),
    (
        b"int_times",
        Builtin::IntTimes,
        &[&[INTEGER_TERM, INTEGER_TERM, INTEGER_TERM]],
        Lengths::Any,
        Shape::Arithmetic(Operation::Times),
    ),
    (
        b"set_in",
        Builtin::SetIn,
        &[&[INTEGER_TERM, SET]],
        Lengths::Any,
        Shape::Dom,
    ),
    (
        b"set_in_reif",
        Builtin::SetInReif,
        &[&[INTEGER_TERM, SET, BOOLEAN_TERM]],
        Lengths::Any,
        Shape::Dom,
    ),
];

/// The shape in the row at a place.
pub(crate) fn shape_at(rows: &[Row], place: usize) -> Shape
    requires { place < length rows.now }
    ensures { result ≡ slice_index_or (map (λ r. r.4) rows.now) place Distinct }
{
    rows[place].4
}

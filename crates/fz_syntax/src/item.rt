//! Items before the solve item.
use crate::annotation::Annotation;
use crate::expression::{Basic, Expression, ListLiteral};
use crate::leaf::{Integer, Name};
use crate::value_type::ValueType;

/// An index set of an array parameter: `int`, or `low..high`.
#[derive(Clone, Copy, Debug)]
pub enum Index {
    AnyIndex,
    IndexRange { low: Integer, high: Integer },
}

/// A parameter of a predicate; `indexes` are those of an array.
#[derive(Drop)]
pub struct PredicateParameter<'a> {
    pub indexes: Option<Vec<Index>>,
    pub variable: bool,
    pub value_type: ValueType,
    pub name: Name<'a>,
}

/// `predicate name(parameter, parameter, ..);`
#[derive(Drop)]
pub struct PredicateItem<'a> {
    pub name: Name<'a>,
    pub parameters: Vec<PredicateParameter<'a>>,
}

/// `var type: name :: annotation .. = value;`
#[derive(Drop)]
pub struct VariableItem<'a> {
    pub value_type: ValueType,
    pub name: Name<'a>,
    pub annotations: Vec<Annotation<'a>>,
    pub value: Option<Basic<'a>>,
}

/// `type: name :: annotation .. = value;`
#[derive(Drop)]
pub struct ParameterItem<'a> {
    pub value_type: ValueType,
    pub name: Name<'a>,
    pub annotations: Vec<Annotation<'a>>,
    pub value: Basic<'a>,
}

/// `array [low..high] of var type: name :: annotation .. = list;`, with or without `var`.
#[derive(Drop)]
pub struct ArrayItem<'a> {
    pub low: Integer,
    pub high: Integer,
    pub variable: bool,
    pub value_type: ValueType,
    pub name: Name<'a>,
    pub annotations: Vec<Annotation<'a>>,
    pub list: ListLiteral<'a>,
}

/// `constraint name(argument, argument, ..) :: annotation ..;`
#[derive(Drop)]
pub struct ConstraintItem<'a> {
    pub name: Name<'a>,
    pub arguments: Vec<Expression<'a>>,
    pub annotations: Vec<Annotation<'a>>,
}

/// An item before the solve item. The one of an array stands in a box, since it is the largest.
#[derive(Drop)]
pub enum Item<'a> {
    Predicate(PredicateItem<'a>),
    Variable(VariableItem<'a>),
    Parameter(ParameterItem<'a>),
    Array(Box<ArrayItem<'a>>),
    Constraint(ConstraintItem<'a>),
}

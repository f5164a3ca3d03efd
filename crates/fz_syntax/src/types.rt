//! Types of declarations.
ghost use Rattle.std.specs.Prelude.{◌≡◌, slice_get};
ghost use Rattle.fz_language.specs.Rules as rules;
ghost use Rattle.fz_syntax.specs.Trees.{type_of};

use crate::floats::first_float_of_set;
use crate::{Plain, ValueType};
use fz_spec::asked::{Asked, Element};
use fz_spec::kind::Kind;

/// What the values of a type are.
pub fn kind_of(value_type: &ValueType) -> Kind
    ensures { result ≡ rules.kind_of (type_of value_type.now) }
{
    match value_type {
        ValueType::One(Plain::AnyBool { .. }) => Kind::Bool,
        ValueType::One(_) | ValueType::SetOf { .. } => Kind::Int,
    }
}

/// What the value of a variable of this type is asked to be.
pub fn term_asked(value_type: &ValueType) -> Element
    ensures { result ≡ rules.term_asked (type_of value_type.now) }
{
    Element {
        kind: kind_of(value_type),
        may_vary: true,
    }
}

/// What the value of a parameter of this type is asked to be.
pub fn value_asked(value_type: &ValueType) -> Asked
    ensures { result ≡ rules.value_asked (type_of value_type.now) }
{
    match value_type {
        ValueType::One(_) => Asked::One(Element {
            kind: kind_of(value_type),
            may_vary: false,
        }),
        ValueType::SetOf { .. } => Asked::Set,
    }
}

/// Where the type of a variable is not supported: a variable is a Boolean, an integer, or one of a set of integers.
pub fn bad_variable_type(value_type: &ValueType) -> Option<u32>
    ensures { result ≡ slice_get (rules.bad_variable_type (type_of value_type.now)) 0 }
{
    match value_type {
        ValueType::One(Plain::AnyBool { .. }) | ValueType::One(Plain::AnyInt { .. }) => None,
        ValueType::One(Plain::AnyFloat { at }) => Some(*at),
        ValueType::One(Plain::Within(set)) => first_float_of_set(set),
        ValueType::SetOf { at, .. } => Some(*at),
    }
}

/// Where the type of a parameter is not supported: a parameter is a Boolean, an integer, or a set of integers.
pub fn bad_parameter_type(value_type: &ValueType) -> Option<u32>
    ensures { result ≡ slice_get (rules.bad_parameter_type (type_of value_type.now)) 0 }
{
    match value_type {
        ValueType::One(Plain::AnyBool { .. }) | ValueType::One(Plain::AnyInt { .. }) => None,
        ValueType::SetOf {
            plain: Plain::AnyInt { .. },
            ..
        } => None,
        _ => Some(value_type.at()),
    }
}

/// Whether the type binds each element of an array of variables.
pub fn is_bound(value_type: &ValueType) -> bool
    ensures { result ≡ rules.is_bound (type_of value_type.now) }
{
    match value_type {
        ValueType::One(Plain::Within(_)) => true,
        _ => false,
    }
}

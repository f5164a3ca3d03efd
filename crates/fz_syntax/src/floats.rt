//! The floats that are written, which are not supported: the place of the first.
ghost use Rattle.std.specs.Prelude.{◌≡◌, map, flat_map, slice_get};
ghost use Rattle.fz_language.specs.Numerals.{float_places, floats_of_set, floats_in};
ghost use Rattle.fz_language.specs.Rules.{floats_of};
ghost use Rattle.fz_syntax.specs.Trees.{number_of, set_of, basic_of, elements_of, expression_of};

use crate::{Basic, Elements, Expression, Number, SetLiteral};

/// The place of a number, if it is a float.
fn first_float_of_number(number: Number) -> Option<u32>
    ensures { result ≡ slice_get (float_places (number_of number)) 0 }
{
    match number {
        Number::Whole(_) => None,
        Number::Float { at } => Some(at),
    }
}

/// The place of the first float among numbers.
fn first_float_of_numbers(numbers: &[Number]) -> Option<u32>
    ensures { result ≡ slice_get (flat_map float_places (map number_of numbers.now)) 0 }
{
    for number in numbers {
        if let Some(at) = first_float_of_number(*number) {
            return Some(at);
        }
    }
    None
}

/// Of a set.
pub fn first_float_of_set(set: &SetLiteral) -> Option<u32>
    ensures { result ≡ slice_get (floats_of_set (set_of set.now)) 0 }
{
    match set {
        SetLiteral::Range { low, high } => match first_float_of_number(*low) {
            Some(at) => Some(at),
            None => first_float_of_number(*high),
        },
        SetLiteral::Braces { members, .. } => first_float_of_numbers(members),
    }
}

/// Of an expression that is no list.
pub fn first_float(basic: &Basic<'_>) -> Option<u32>
    ensures { result ≡ slice_get (floats_in (basic_of basic.now)) 0 }
{
    match basic {
        Basic::Numeral(number) => first_float_of_number(*number),
        Basic::Small { member, .. } => first_float_of_numbers(member.as_slice()),
        Basic::Literal(set) => first_float_of_set(set),
        Basic::Truth { .. } | Basic::Named { .. } => None,
    }
}

/// The place of the first float in expressions.
fn first_float_of_basics(basics: &[Basic<'_>]) -> Option<u32>
    ensures { result ≡ slice_get (flat_map floats_in (map basic_of basics.now)) 0 }
{
    for basic in basics {
        if let Some(at) = first_float(basic) {
            return Some(at);
        }
    }
    None
}

/// Of the elements of a list.
pub fn first_float_of_elements(elements: &Elements<'_>) -> Option<u32>
    ensures { result ≡ slice_get (flat_map floats_in (elements_of elements.now)) 0 }
{
    match elements {
        Elements::Integers(_) => None,
        Elements::Basics(basics) => first_float_of_basics(basics),
    }
}

/// Of an argument of a constraint.
fn first_float_of_argument(argument: &Expression<'_>) -> Option<u32>
    ensures { result ≡ slice_get (floats_of (expression_of argument.now)) 0 }
{
    match argument {
        Expression::Scalar(basic) => first_float(basic),
        Expression::Integers { .. } => None,
        Expression::Basics { basics, .. } => first_float_of_basics(basics),
    }
}

/// Of the arguments of a constraint.
pub fn first_float_of_arguments(arguments: &[Expression<'_>]) -> Option<u32>
    ensures { result ≡ slice_get (flat_map floats_of (map expression_of arguments.now)) 0 }
{
    for argument in arguments {
        if let Some(at) = first_float_of_argument(argument) {
            return Some(at);
        }
    }
    None
}

//! The first place at which a declaration breaks a rule, for each rule but those of types of values and of limits.
ghost use Rattle.std.specs.Prelude.{◌≡◌, ℕ, List, ◌++◌, cond, flat_map, option_map, slice_get};
ghost use Rattle.fz_language.specs.Numerals.{floats_in};
ghost use Rattle.fz_language.specs.Rules as rules;
ghost use Rattle.fz_syntax.specs.Trees as trees;
ghost use Rattle.fz_resolve.specs.Meant.{environment_of};
ghost use Rattle.fz_language.specs.Annotations.{shape_among};

use crate::annotations::{
    OUTPUT_ARRAY, annotation_of, element_count, output_array_at, output_var_at, seventh_range_at,
};
use crate::names::Names;
use fz_syntax::floats::{first_float, first_float_of_elements};
use fz_syntax::types::{bad_parameter_type, bad_variable_type};
use fz_syntax::{Annotation, ArrayItem, Basic, Name, ParameterItem, ValueType, VariableItem};

/// The first of two places that there is.
fn or_else(first: Option<u32>, second: Option<u32>) -> Option<u32>
    ensures { (xs ys : List ℕ) → first ≡ slice_get xs 0 → second ≡ slice_get ys 0
        → result ≡ slice_get (xs ++ ys) 0 }
{
    match first {
        Some(at) => Some(at),
        None => second,
    }
}

/// The lesser of two places.
fn lesser(first: Option<u32>, second: Option<u32>) -> Option<u32>
    ensures { (xs ys : List ℕ) → first ≡ slice_get xs 0 → second ≡ slice_get ys 0
        → result ≡ slice_get (rules.in_order xs ys) 0 }
{
    match (first, second) {
        (Some(this), Some(that)) => Some(if that < this { that } else { this }),
        (None, _) => second,
        (_, None) => first,
    }
}

/// The place of a value that is a float.
fn first_float_of_value(value: &Option<Basic<'_>>) -> Option<u32>
    ensures { result ≡ slice_get (rules.floats_of_value (option_map trees.basic_of value.now)) 0 }
{
    match value {
        Some(value) => first_float(value),
        None => None,
    }
}

/// Where the declaration of a variable has what isn't supported.
pub fn unsupported_variable(item: &VariableItem<'_>) -> Option<u32>
    ensures { let v = trees.variable_item_of item.now in
        result ≡ slice_get (rules.bad_variable_type v.value_type
        ++ rules.seventh_ranges v.annotations ++ rules.floats_of_value v.value) 0 }
{
    let typed = or_else(
        bad_variable_type(&item.value_type),
        seventh_range_at(&item.annotations),
    );
    or_else(typed, first_float_of_value(&item.value))
}

/// Where the declaration of a parameter has what isn't supported.
pub fn unsupported_parameter(item: &ParameterItem<'_>) -> Option<u32>
    ensures { let p = trees.parameter_item_of item.now in
        result ≡ slice_get (rules.bad_parameter_type p.value_type
        ++ rules.seventh_ranges p.annotations ++ floats_in p.value) 0 }
{
    let typed = or_else(
        bad_parameter_type(&item.value_type),
        seventh_range_at(&item.annotations),
    );
    or_else(typed, first_float(&item.value))
}

/// The place of a type that the elements of no such array have.
fn bad_element_type(variable: bool, value_type: &ValueType) -> Option<u32>
    ensures { result
        ≡ slice_get (rules.bad_element_type variable (trees.type_of value_type.now)) 0 }
{
    if variable {
        bad_variable_type(value_type)
    } else {
        bad_parameter_type(value_type)
    }
}

/// Where the declaration of an array has what isn't supported.
pub fn unsupported_array(item: &ArrayItem<'_>) -> Option<u32>
    ensures { let a = trees.array_item_of item.now in
        result ≡ slice_get (rules.bad_element_type a.variable a.value_type
        ++ rules.seventh_ranges a.annotations ++ flat_map floats_in a.list.elements) 0 }
{
    let typed = or_else(
        bad_element_type(item.variable, &item.value_type),
        seventh_range_at(&item.annotations),
    );
    or_else(typed, first_float_of_elements(&item.list.elements))
}

/// The output annotation that has no place at a parameter.
pub fn misplaced_at_parameter(item: &ParameterItem<'_>) -> Option<u32>
    ensures { let p = trees.parameter_item_of item.now in
        result ≡ slice_get (rules.in_order (rules.output_var_places p.annotations)
        (rules.output_array_places p.annotations)) 0 }
{
    lesser(
        output_var_at(&item.annotations),
        output_array_at(&item.annotations),
    )
}

/// The output annotation `output_array` that hasn't its form; `shape` are its index ranges, if it has.
fn malformed_at(annotations: &[Annotation<'_>], shape: &Option<Vec<(i32, i32)>>) -> Option<u32>
    requires { option_map (λ ranges. ranges.items) shape.now
        ≡ shape_among (trees.annotations_of annotations.now) }
    ensures { result
        ≡ slice_get (rules.malformed_output_array (trees.annotations_of annotations.now)) 0 }
{
    match shape {
        Some(_) => None,
        None => output_array_at(annotations),
    }
}

/// The place of an `output_array` that hasn't its form, or that stands at an array of parameters.
fn output_array_misplaced(item: &ArrayItem<'_>, shape: &Option<Vec<(i32, i32)>>) -> Option<u32>
    requires { option_map (λ ranges. ranges.items) shape.now
        ≡ shape_among (trees.annotations_of item.now.annotations.items) }
    ensures { let a = trees.array_item_of item.now in
        result ≡ slice_get (cond a.variable (rules.malformed_output_array a.annotations)
        (rules.output_array_places a.annotations)) 0 }
{
    if item.variable {
        malformed_at(&item.annotations, shape)
    } else {
        output_array_at(&item.annotations)
    }
}

/// The output annotation that has no place at an array, or is an `output_array` that hasn't its form; `shape` are the index ranges
/// of that one, if it has.
pub fn misplaced_at_array(item: &ArrayItem<'_>, shape: &Option<Vec<(i32, i32)>>) -> Option<u32>
    requires { option_map (λ ranges. ranges.items) shape.now
        ≡ shape_among (trees.annotations_of item.now.annotations.items) }
    ensures { let a = trees.array_item_of item.now in
        result ≡ slice_get (rules.in_order (rules.output_var_places a.annotations)
        (cond a.variable (rules.malformed_output_array a.annotations)
        (rules.output_array_places a.annotations))) 0 }
{
    lesser(
        output_var_at(&item.annotations),
        output_array_misplaced(item, shape),
    )
}

/// The name of an array whose index set isn't 1..n, n the number of its elements.
fn wrong_index_set_at(item: &ArrayItem<'_>) -> Option<u32>
    ensures { result ≡ slice_get (rules.wrong_index_set (trees.array_item_of item.now)) 0 }
{
    if item.low.value == 1 && usize::try_from(item.high.value) == Ok(item.list.elements.len()) {
        None
    } else {
        Some(item.name.at)
    }
}

/// The output annotation of an array whose index ranges don't multiply to the number of its elements.
fn wrong_shape_at(item: &ArrayItem<'_>, shape: &Option<Vec<(i32, i32)>>) -> Option<u32>
    requires { option_map (λ ranges. ranges.items) shape.now
        ≡ shape_among (trees.annotations_of item.now.annotations.items) }
    ensures { result ≡ slice_get (rules.wrong_shape (trees.array_item_of item.now)) 0 }
{
    let Some(shape) = shape else {
        return None;
    };
    if element_count(shape) == item.list.elements.len() as u64 {
        return None;
    }
    output_array_at(&item.annotations)
}

/// Where an array hasn't the length of its index set, or of the index ranges for its output, which `shape` are.
pub fn wrong_length_at(item: &ArrayItem<'_>, shape: &Option<Vec<(i32, i32)>>) -> Option<u32>
    requires { option_map (λ ranges. ranges.items) shape.now
        ≡ shape_among (trees.annotations_of item.now.annotations.items) }
    ensures { let a = trees.array_item_of item.now in
        result ≡ slice_get (rules.wrong_index_set a ++ rules.wrong_shape a) 0 }
{
    or_else(wrong_index_set_at(item), wrong_shape_at(item, shape))
}

/// The place of a name that is declared already.
pub fn declared_already<'a>(names: &Names<'a>, name: Name<'a>) -> Option<u32>
    ensures { result
        ≡ slice_get (rules.declared_already (environment_of names.now)
        (trees.name_of name.entry)) 0 }
{
    match names.entry(name) {
        Some(_) => Some(name.at),
        None => None,
    }
}

//! The first rule that a declaration breaks, but for the limits.
ghost use Rattle.std.specs.Prelude.{◌≡◌, ◌++◌, List, option_map, slice_get, IfOk};
ghost use Rattle.std.specs.List.{AllByRecursion};
ghost use Rattle.fz_language.specs.Entries as entries;
ghost use Rattle.fz_language.specs.Models as models;
ghost use Rattle.fz_language.specs.Rules as rules;
ghost use Rattle.fz_language.specs.Trees as lang;
ghost use Rattle.fz_language.specs.Within.{BasicFits};
ghost use Rattle.fz_syntax.specs.Trees as trees;
ghost use Rattle.fz_resolve.specs.Meant.{environment_of, meant};
ghost use Rattle.fz_language.specs.Annotations.{shape_among};
ghost use Rattle.fz_check.specs.Checked.{IsFirstOf};

use crate::faults::{first_place, or_else};
use fz_language::fault::RuleFault;
use fz_resolve::annotations::output_array_at;
use fz_resolve::resolve::term;
use fz_resolve::rules::{
    declared_already, misplaced_at_array, misplaced_at_parameter, unsupported_array,
    unsupported_parameter, unsupported_variable, wrong_length_at,
};
use fz_resolve::{Entry, Fault, Names, fault_at};
use fz_spec::asked::{Asked, Element};
use fz_syntax::types::term_asked;
use fz_syntax::{ArrayItem, Basic, ParameterItem, ValueType, VariableItem};

/// The first rule that the declaration of a variable breaks.
pub(crate) fn variable_fault<'a>(names: &Names<'a>, item: &VariableItem<'a>) -> Option<Fault>
    ensures { IsFirstOf (rules.item_faults (environment_of names.now) (lang.Variable
        (trees.variable_item_of item.now))) result }
{
    let unsupported = fault_at(RuleFault::Unsupported, unsupported_variable(item));
    let unknown = fault_at(RuleFault::UnknownName, unknown_in_value(names, &item.value));
    let wrong = fault_at(RuleFault::WrongType, wrong_at_variable(names, item));
    let twice = fault_at(RuleFault::DeclaredTwice, declared_already(names, item.name));
    or_else(or_else(or_else(unsupported, unknown), wrong), twice)
}

/// The place of the first name in a value that nothing declares.
fn unknown_in_value<'a>(names: &Names<'a>, value: &Option<Basic<'a>>) -> Option<u32>
    ensures { result ≡ slice_get (rules.unknown_of_value (environment_of names.now)
        (option_map trees.basic_of value.now)) 0 }
{
    match value {
        Some(basic) => names.unknown(basic),
        None => None,
    }
}

/// The place of the first thing at a variable that is of a wrong type: an annotation of arrays, or its value.
fn wrong_at_variable<'a>(names: &Names<'a>, item: &VariableItem<'a>) -> Option<u32>
    ensures { let v = trees.variable_item_of item.now in
        result ≡ slice_get (rules.output_array_places v.annotations
        ++ rules.wrong_value (environment_of names.now) v.value_type v.value) 0 }
{
    let misplaced = output_array_at(&item.annotations);
    first_place(misplaced, wrong_value(names, &item.value_type, &item.value))
}

/// The place of a value that its type does not allow.
fn wrong_value<'a>(
    names: &Names<'a>,
    value_type: &ValueType,
    value: &Option<Basic<'a>>,
) -> Option<u32>
    ensures { result ≡ slice_get (rules.wrong_value (environment_of names.now)
        (trees.type_of value_type.now) (option_map trees.basic_of value.now)) 0 }
{
    match value {
        Some(basic) => wrong_term(names, term_asked(value_type), basic),
        None => None,
    }
}

/// The place of an expression that isn't the term that is asked.
pub(crate) fn wrong_term<'a>(names: &Names<'a>, asked: Element, basic: &Basic<'a>) -> Option<u32>
    ensures { result ≡ slice_get (rules.wrong_place (entries.resolve (environment_of names.now)
        (Asked.One asked) (lang.Scalar (trees.basic_of basic.now)))) 0 }
{
    match term(names, asked, basic) {
        Some(_) => None,
        None => Some(basic.at()),
    }
}

/// The first rule that the declaration of a parameter breaks; `entry` is what its name stands for, if it has the type.
pub(crate) fn parameter_fault<'a>(
    names: &Names<'a>,
    item: &ParameterItem<'a>,
    entry: &Option<Entry>,
) -> Option<Fault>
    requires { let p = trees.parameter_item_of item.now in
        option_map meant entry.now
        ≡ models.parameter_entry (environment_of names.now) p.value_type p.value }
    ensures { IsFirstOf (rules.item_faults (environment_of names.now) (lang.Parameter
        (trees.parameter_item_of item.now))) result }
{
    let unsupported = fault_at(RuleFault::Unsupported, unsupported_parameter(item));
    let unknown = fault_at(RuleFault::UnknownName, names.unknown(&item.value));
    let misplaced = misplaced_at_parameter(item);
    let wrong = fault_at(
        RuleFault::WrongType,
        first_place(misplaced, wrong_parameter(names, item, entry)),
    );
    let twice = fault_at(RuleFault::DeclaredTwice, declared_already(names, item.name));
    or_else(or_else(or_else(unsupported, unknown), wrong), twice)
}

/// The place of a value that hasn't the type of its parameter.
fn wrong_parameter<'a>(
    _names: &Names<'a>,
    item: &ParameterItem<'a>,
    entry: &Option<Entry>,
) -> Option<u32>
    requires { let p = trees.parameter_item_of item.now in
        option_map meant entry.now
        ≡ models.parameter_entry (environment_of _names.now) p.value_type p.value }
    ensures { let p = trees.parameter_item_of item.now in
        result ≡ slice_get (rules.wrong_place (entries.resolve (environment_of _names.now)
        (rules.value_asked p.value_type) (lang.Scalar p.value))) 0 }
{
    match entry {
        Some(_) => None,
        None => Some(item.value.at()),
    }
}

/// The first rule that the declaration of an array breaks; `shape` are the index ranges of its annotation for output, `wrong` is the
/// place of the first element that hasn't the type.
pub(crate) fn array_fault<'a>(
    names: &Names<'a>,
    item: &ArrayItem<'a>,
    shape: &Option<Vec<(i32, i32)>>,
    wrong: Option<u32>,
) -> Option<Fault>
    requires shape { option_map (λ ranges. ranges.items) shape.now
        ≡ shape_among (trees.annotations_of item.now.annotations.items) }
    requires wrong { let a = trees.array_item_of item.now in
        wrong ≡ slice_get (rules.wrong_element
        (environment_of names.now) a.variable a.value_type a.list) 0 }
    ensures { IsFirstOf (rules.item_faults (environment_of names.now) (lang.Array
        (trees.array_item_of item.now))) result }
{
    let unsupported = fault_at(RuleFault::Unsupported, unsupported_array(item));
    let unknown = fault_at(
        RuleFault::UnknownName,
        names.unknown_element(&item.list.elements),
    );
    let misplaced = misplaced_at_array(item, shape);
    let typed = fault_at(RuleFault::WrongType, first_place(misplaced, wrong));
    let long = fault_at(RuleFault::WrongLengths, wrong_length_at(item, shape));
    let twice = fault_at(RuleFault::DeclaredTwice, declared_already(names, item.name));
    or_else(
        or_else(or_else(or_else(unsupported, unknown), typed), long),
        twice,
    )
}

//! What declarations add to a model.
ghost use Rattle.std.specs.Prelude.{◌≡◌, ◌++◌, ◌∷◌, [], OnOk, IfOk, Some, None, true, false, map, option_map, ◌≤◌, length, pos};
ghost use Rattle.fz_sets.specs.Sets.{LEAST, GREATEST};
ghost use Rattle.fz_spec.specs.declared.term.Term.TheVariants.{Var};
ghost use Rattle.fz_language.specs.Entries.{Environment};
ghost use Rattle.fz_language.specs.Entries as entries;
ghost use Rattle.fz_language.specs.Models as models;
ghost use Rattle.fz_language.specs.Rules as rules;
ghost use Rattle.fz_language.specs.Within.{TypeFits, PlainFits};
ghost use Rattle.fz_model.specs.Kept.{IsVariable};
ghost use Rattle.fz_syntax.specs.Trees as trees;
ghost use Rattle.fz_resolve.specs.Meant.{environment_of, meant};
ghost use Rattle.fz_language.specs.Annotations.{shape_among};
ghost use Rattle.fz_check.specs.Parts.{scope};

use fz_dom::Dom;
use fz_model::{Argument, Constraint, Constraints, Kind, Listed, Output, Term, Text, Variable};
use fz_resolve::annotations::output_var_at;
use fz_resolve::resolve::{literal, term};
use fz_resolve::{Entry, Names};
use fz_spec::builtin::Builtin;
use fz_syntax::types::{is_bound, kind_of, term_asked};
use fz_syntax::{ArrayItem, Name, Plain, ValueType, VariableItem};
use std::alloc::{AllocError, Global};
use std::sync::Arc;

/// The set of a type of variables.
fn type_set(alloc: Global, value_type: &ValueType) -> Result<Dom, AllocError>
    requires { TypeFits (trees.type_of value_type.now) }
    ensures { IfOk result (λ set. set ≡ models.type_set (trees.type_of value_type.now)) }
{
    match value_type {
        ValueType::One(plain) => plain_set(alloc, plain),
        ValueType::SetOf { .. } => empty_set(alloc),
    }
}

fn empty_set(alloc: Global) -> Result<Dom, AllocError>
    ensures { IfOk result (λ set. set ≡ []) }
{
    let set = Dom::from_ranges(alloc, &[])?;
    Ok(set)
}

fn boolean_set(alloc: Global) -> Result<Dom, AllocError>
    ensures { IfOk result (λ set. set ≡ (pos 0, pos 1) ∷ []) }
{
    let set = Dom::from_ranges(alloc, &[(0, 1)])?;
    Ok(set)
}

fn integer_set(alloc: Global) -> Result<Dom, AllocError>
    ensures { IfOk result (λ set. set ≡ (LEAST, GREATEST) ∷ []) }
{
    let set = Dom::from_ranges(alloc, &[(-2_147_483_646, 2_147_483_646)])?;
    Ok(set)
}

/// The domain of a variable of a plain type: 0 and 1, all integers, or the written set.
fn plain_set(alloc: Global, plain: &Plain) -> Result<Dom, AllocError>
    requires { PlainFits (trees.plain_of plain.now) }
    ensures { IfOk result (λ set. set ≡ models.plain_set (trees.plain_of plain.now)) }
{
    match plain {
        Plain::AnyBool { .. } => boolean_set(alloc),
        Plain::AnyInt { .. } => integer_set(alloc),
        Plain::AnyFloat { .. } => empty_set(alloc),
        Plain::Within(set) => match literal(alloc, set)? {
            Some(set) => Ok(set),
            None => empty_set(alloc),
        },
    }
}

/// The variable of a type.
pub(crate) fn variable_of(alloc: Global, value_type: &ValueType) -> Result<Variable, AllocError>
    requires fits { TypeFits (trees.type_of value_type.now) }
    requires variable { let t = trees.type_of value_type.now in
        IsVariable (record { kind = rules.kind_of t; set = models.type_set t }) }
    ensures { let t = trees.type_of value_type.now in
        IfOk result (λ v. v ≡ record { kind = rules.kind_of t; set = models.type_set t }) }
{
    let set = type_set(alloc, value_type)?;
    Ok(Variable::new(kind_of(value_type), set))
}

/// The term that the value of a variable is, if it has one.
pub(crate) fn value_of<'a>(names: &Names<'a>, item: &VariableItem<'a>) -> Option<Term>
    ensures { let v = trees.variable_item_of item.now in
        result ≡ models.value_term (environment_of names.now) v.value_type v.value }
{
    match &item.value {
        Some(basic) => term(names, term_asked(&item.value_type), basic),
        None => None,
    }
}

/// Adds the constraint that a variable equals its value, if it has one.
pub(crate) fn push_value(
    alloc: Global,
    constraints: &mut Constraints,
    kind: Kind,
    number: u32,
    value: Option<Term>,
) -> Result<(), AllocError>
    ensures { OnOk result (constraints.new ≡ constraints.old
        ++ models.equal_to_value kind number value) }
{
    let Some(value) = value else {
        return Ok(());
    };
    let constraint = equal_to(alloc, kind, number, value)?;
    constraints.push(constraint)?;
    Ok(())
}

/// The constraint that a variable equals a term.
fn equal_to(alloc: Global, kind: Kind, number: u32, value: Term) -> Result<Constraint, AllocError>
    ensures { IfOk result (λ c. c ≡ models.equal_to kind (Var number) value) }
{
    let builtin = match kind {
        Kind::Bool => Builtin::BoolEq,
        Kind::Int => Builtin::IntEq,
    };
    let arguments = Vec::from_array(
        alloc,
        [Argument::One(Term::Var(number)), Argument::One(value)],
    )?;
    Ok(Constraint::new(builtin, arguments))
}

/// Adds the output item of a variable that is annotated so.
pub(crate) fn push_scalar(
    alloc: Global,
    outputs: &mut Vec<Output>,
    item: &VariableItem<'_>,
    number: u32,
) -> Result<(), AllocError>
    ensures { OnOk result ((env : Environment) → outputs.new.items
        ≡ outputs.old.items ++ models.scalar_outputs (scope env number)
        (trees.variable_item_of item.now)) }
{
    if output_var_at(&item.annotations).is_none() {
        return Ok(());
    }
    let output = scalar(alloc, item.name, kind_of(&item.value_type), number)?;
    outputs.push(output)?;
    Ok(())
}

/// The output of one variable.
fn scalar(alloc: Global, name: Name<'_>, kind: Kind, number: u32) -> Result<Output, AllocError>
    ensures { IfOk result (λ o. o
        ≡ record {
          name = name.entry.bytes.now;
          kind = kind;
          array = false;
          shape = [];
          terms = Var number ∷ [];
        }) }
{
    let name = text(alloc, name.bytes)?;
    let terms = Vec::from_array(alloc, [Term::Var(number)])?;
    Ok(Output::new(name, kind, false, Vec::new(alloc), Listed::own(terms)))
}

/// The text of a name, which is ASCII.
fn text(alloc: Global, bytes: &[u8]) -> Result<Text, AllocError>
    ensures { IfOk result (λ t. t ≡ bytes.now) }
{
    match str::from_utf8(bytes) {
        Ok(text) => Ok(Text::new(String::from_str(alloc, text)?)),
        Err(_) => Err(AllocError),
    }
}

/// Adds the constraints that the elements of an array lie in the set of its type, where that is written.
pub(crate) fn push_bounds(
    alloc: Global,
    constraints: &mut Constraints,
    item: &ArrayItem<'_>,
    entry: &Entry,
) -> Result<(), AllocError>
    requires { TypeFits (trees.type_of item.now.value_type) }
    ensures { OnOk result ((env : Environment) → let a = trees.array_item_of item.now in
        meant entry.now ≡ models.array_entry env a a.variable a.value_type
        → constraints.new ≡ constraints.old
        ++ models.element_constraints (scope env 0) a) }
{
    match entry {
        Entry::Terms(list) if is_bound(&item.value_type) => {
            let set = Arc::new(alloc, type_set(alloc, &item.value_type)?)?;
            constraints.push_within(list.shared()?, set)
        }
        _ => Ok(()),
    }
}

/// Adds the output item of an array with these index ranges.
pub(crate) fn push_array(
    alloc: Global,
    outputs: &mut Vec<Output>,
    item: &ArrayItem<'_>,
    entry: &Entry,
    shape: Option<Vec<(i32, i32)>>,
) -> Result<(), AllocError>
    requires { option_map (λ ranges. ranges.items) shape
        ≡ shape_among (trees.annotations_of item.now.annotations.items) }
    ensures { OnOk result ((env : Environment) → let a = trees.array_item_of item.now in
        meant entry.now ≡ models.array_entry env a a.variable a.value_type
        → (a.variable ≡ false → shape_among a.annotations ≡ None)
        → outputs.new.items ≡ outputs.old.items ++ models.array_outputs (scope env 0) a) }
{
    let Some(shape) = shape else {
        return Ok(());
    };
    match entry {
        Entry::Terms(list) => {
            let output = array(alloc, item.name, list.kind(), shape, list.shared()?)?;
            outputs.push(output)?;
            Ok(())
        }
        _ => Ok(()),
    }
}

/// The output of an array.
fn array(
    alloc: Global,
    name: Name<'_>,
    kind: Kind,
    shape: Vec<(i32, i32)>,
    terms: Listed<Term>,
) -> Result<Output, AllocError>
    ensures { IfOk result (λ o. o
        ≡ record {
          name = name.entry.bytes.now;
          kind = kind;
          array = true;
          shape = shape.items;
          terms = terms;
        }) }
{
    let name = text(alloc, name.bytes)?;
    Ok(Output::new(name, kind, true, shape, terms))
}

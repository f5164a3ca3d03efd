//! What the name of a parameter or an array stands for.
ghost use Rattle.std.specs.Prelude.{◌≡◌, IfOk, option_map, map, true, false};
ghost use Rattle.std.specs.List.{AllByRecursion};
ghost use Rattle.fz_language.specs.Entries as entries;
ghost use Rattle.fz_language.specs.Models as models;
ghost use Rattle.fz_language.specs.Rules as rules;
ghost use Rattle.fz_language.specs.Within.{BasicFits};
ghost use Rattle.fz_syntax.specs.Trees as trees;
ghost use Rattle.fz_resolve.specs.Meant.{environment_of, meant};
ghost use Rattle.fz_check.specs.Entered.{value_entry, set_entry, IsArrayEntry};

use fz_resolve::resolve::{numbers_in, set, term, terms};
use fz_resolve::{Entry, Names, NumberList, TermList};
use fz_spec::asked::Element;
use fz_spec::kind::Kind;
use fz_spec::term::Term;
use fz_syntax::types::kind_of;
use fz_syntax::{ArrayItem, Basic, Elements, Integer, ParameterItem, ValueType};
use std::alloc::{AllocError, Global};

/// What the name of a parameter stands for, if its value has the type.
pub(crate) fn parameter_entry<'a>(
    alloc: Global,
    names: &Names<'a>,
    item: &ParameterItem<'a>,
) -> Result<Option<Entry>, AllocError>
    requires { BasicFits (trees.basic_of item.now.value) }
    ensures { let p = trees.parameter_item_of item.now in
        IfOk result (λ entry. option_map meant entry
        ≡ models.parameter_entry (environment_of names.now) p.value_type p.value) }
{
    match &item.value_type {
        ValueType::One(_) => Ok(one_value(names, kind_of(&item.value_type), &item.value)),
        ValueType::SetOf { .. } => set_value(alloc, names, &item.value),
    }
}

/// What a parameter of one number or Boolean stands for.
fn one_value<'a>(names: &Names<'a>, kind: Kind, basic: &Basic<'a>) -> Option<Entry>
    ensures { option_map meant result
        ≡ value_entry kind (entries.term_in (environment_of names.now)
        (record { kind = kind; may_vary = false }) (trees.basic_of basic.now)) }
{
    let asked = Element {
        kind,
        may_vary: false,
    };
    match term(names, asked, basic) {
        Some(term) => Some(Entry::Value {
            kind,
            value: number_of(term),
        }),
        None => None,
    }
}

fn number_of(term: Term) -> i32
    ensures { result ≡ entries.number_of term }
{
    match term {
        Term::Num(number) => number,
        Term::Var(_) => 0,
    }
}

/// What a parameter that is a set stands for.
fn set_value<'a>(
    alloc: Global,
    names: &Names<'a>,
    basic: &Basic<'a>,
) -> Result<Option<Entry>, AllocError>
    requires { BasicFits (trees.basic_of basic.now) }
    ensures { IfOk result (λ entry. option_map meant entry
        ≡ set_entry (entries.set_of (environment_of names.now) (trees.basic_of basic.now))) }
{
    match set(alloc, names, basic)? {
        Some(set) => Ok(Some(Entry::Set(set))),
        None => Ok(None),
    }
}

/// What the name of an array stands for, or the place of its first element that hasn't the type.
pub(crate) fn array_entry<'a>(
    alloc: Global,
    names: &Names<'a>,
    item: &ArrayItem<'a>,
) -> Result<Result<Entry, u32>, AllocError>
    requires { AllByRecursion BasicFits (trees.elements_of item.now.list.elements) }
    ensures { IfOk result (IsArrayEntry (environment_of names.now) (trees.array_item_of item.now)) }
{
    let kind = kind_of(&item.value_type);
    if item.variable {
        let entry = term_list(alloc, names, kind, &item.list.elements)?;
        return Ok(entry);
    }
    match &item.value_type {
        ValueType::One(_) => Ok(number_list(alloc, names, kind, &item.list.elements)?),
        ValueType::SetOf { .. } => Ok(set_list(alloc, names, &item.list.elements)?),
    }
}

/// What an array of variables stands for, or the place of its first element of a wrong type.
fn term_list<'a>(
    alloc: Global,
    names: &Names<'a>,
    kind: Kind,
    elements: &Elements<'a>,
) -> Result<Result<Entry, u32>, AllocError>
    ensures { IfOk result (λ entry. entries.with_value meant entry
        ≡ entries.with_value (λ terms. entries.Terms kind terms)
        (entries.each_of (entries.term_in (environment_of names.now)
        (record { kind = kind; may_vary = true })) (trees.elements_of elements.now))) }
{
    let asked = Element {
        kind,
        may_vary: true,
    };
    match terms(alloc, names, asked, elements)? {
        Ok(terms) => Ok(Ok(terms_entry(alloc, kind, terms)?)),
        Err(at) => Ok(Err(at)),
    }
}

fn terms_entry(alloc: Global, kind: Kind, terms: Vec<Term>) -> Result<Entry, AllocError>
    ensures { IfOk result (λ entry. meant entry ≡ entries.Terms kind terms.items) }
{
    let list = Box::new(alloc, TermList::new(alloc, kind, terms)?)?;
    Ok(Entry::Terms(list))
}

/// What an array of numbers or Booleans stands for, or the place of its first element of a wrong type.
fn number_list<'a>(
    alloc: Global,
    names: &Names<'a>,
    kind: Kind,
    elements: &Elements<'a>,
) -> Result<Result<Entry, u32>, AllocError>
    ensures { IfOk result (λ entry. entries.with_value meant entry
        ≡ entries.with_value (λ terms. entries.Numbers kind (map entries.number_of terms))
        (entries.each_of (entries.term_in (environment_of names.now)
        (record { kind = kind; may_vary = false })) (trees.elements_of elements.now))) }
{
    match numbers_in(alloc, names, kind, elements)? {
        Ok(numbers) => Ok(Ok(numbers_entry(alloc, kind, numbers)?)),
        Err(at) => Ok(Err(at)),
    }
}

fn numbers_entry(alloc: Global, kind: Kind, numbers: Vec<i32>) -> Result<Entry, AllocError>
    ensures { IfOk result (λ entry. meant entry ≡ entries.Numbers kind numbers.items) }
{
    let list = Box::new(alloc, NumberList::new(alloc, kind, numbers)?)?;
    Ok(Entry::Numbers(list))
}

/// What an array of sets stands for, or the place of its first element of a wrong type.
fn set_list<'a>(
    alloc: Global,
    names: &Names<'a>,
    elements: &Elements<'a>,
) -> Result<Result<Entry, u32>, AllocError>
    requires { AllByRecursion BasicFits (trees.elements_of elements.now) }
    ensures { IfOk result (λ entry. entries.with_value meant entry
        ≡ entries.with_value (λ sets. entries.Sets)
        (entries.each_of (entries.set_of (environment_of names.now))
        (trees.elements_of elements.now))) }
{
    match elements {
        Elements::Integers(integers) => Ok(sets_of_integers(integers)),
        Elements::Basics(basics) => sets_of_basics(alloc, names, basics),
    }
}

/// No integer is a set.
fn sets_of_integers(integers: &[Integer]) -> Result<Entry, u32>
    ensures { (env : entries.Environment) → entries.with_value meant result
        ≡ entries.with_value (λ sets. entries.Sets)
        (entries.each_of (entries.set_of env) (map trees.integer_basic_of integers.now)) }
{
    match integers.first() {
        Some(integer) => Err(integer.at),
        None => Ok(Entry::Sets),
    }
}

/// That all of these expressions are sets, or the place of the first that is none.
fn sets_of_basics<'a>(
    alloc: Global,
    names: &Names<'a>,
    basics: &[Basic<'a>],
) -> Result<Result<Entry, u32>, AllocError>
    requires { AllByRecursion BasicFits (map trees.basic_of basics.now) }
    ensures { IfOk result (λ entry. entries.with_value meant entry
        ≡ entries.with_value (λ sets. entries.Sets)
        (entries.each_of (entries.set_of (environment_of names.now))
        (map trees.basic_of basics.now))) }
{
    for basic in basics {
        match set(alloc, names, basic)? {
            Some(_set) => {}
            None => return Ok(Err(basic.at())),
        }
    }
    Ok(Ok(Entry::Sets))
}

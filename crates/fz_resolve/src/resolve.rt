//! From expressions to arguments of constraints.
ghost use Rattle.std.specs.Prelude.{◌≡◌, ℤ, IfOk, None, map, option_map, slice_get, false};
ghost use Rattle.std.specs.Arc.{arc_value};
ghost use Rattle.std.specs.List.{AllByRecursion};
ghost use Rattle.fz_language.specs.Entries as entries;
ghost use Rattle.fz_language.specs.Entries.{Environment, term_in, each_of, with_value, number_of, truth_value};
ghost use Rattle.fz_language.specs.Numerals.{set_in, ranges_of, all_of, value_of};
ghost use Rattle.fz_language.specs.Within.{NumberFits, SetFits, BasicFits, ExpressionFits};
ghost use Rattle.fz_model.specs.Arguments.{argument_of};
ghost use Rattle.fz_syntax.specs.Trees as trees;
ghost use Rattle.fz_syntax.specs.Trees.{integer_basic_of, basic_of, elements_of, expression_of};
ghost use Rattle.fz_resolve.specs.Meant.{environment_of, meant};
ghost use Rattle.fz_language.specs.SetLaws.{points_of};

use crate::entry::{Entry, of_kind};
use crate::names::Names;
use fz_dom::Dom;
use fz_model::{Argument, Kind, Listed, Term};
use fz_spec::asked::{Asked, Element};
use fz_syntax::{Basic, Elements, Expression, Integer, Name, Number, SetLiteral};
use std::alloc::{AllocError, Global};
use std::sync::Arc;

/// What is asked, or the place where an expression is of a wrong type.
pub type Checked<T> = Result<T, u32>;

/// The term that an expression is, if it is what is asked.
pub fn term<'a>(names: &Names<'a>, asked: Element, basic: &Basic<'a>) -> Option<Term>
    ensures { result ≡ term_in (environment_of names.now) asked (basic_of basic.now) }
{
    match basic {
        Basic::Truth { value, .. } => of_kind(asked.kind, Kind::Bool, truth(*value)),
        Basic::Numeral(Number::Whole(integer)) => {
            of_kind(asked.kind, Kind::Int, Term::Num(integer.value))
        }
        Basic::Named { at, bytes } => match names.entry(Name {
            bytes: *bytes,
            at: *at,
        }) {
            Some(entry) => entry.term(asked),
            None => None,
        },
        Basic::Numeral(Number::Float { .. }) | Basic::Small { .. } | Basic::Literal(_) => None,
    }
}

fn truth(value: bool) -> Term
    ensures { result ≡ Term.Num (truth_value value) }
{
    if value { Term::Num(1) } else { Term::Num(0) }
}

/// The terms that the elements of a list are, or the place of the first that isn't what is asked.
pub fn terms<'a>(
    alloc: Global,
    names: &Names<'a>,
    asked: Element,
    elements: &Elements<'a>,
) -> Result<Checked<Vec<Term>>, AllocError>
    ensures { IfOk result (λ found. with_value (λ terms. terms.items) found
        ≡ each_of (term_in (environment_of names.now) asked) (elements_of elements.now)) }
{
    match elements {
        Elements::Integers(integers) => terms_of_integers(alloc, asked, integers),
        Elements::Basics(basics) => terms_of_basics(alloc, names, asked, basics),
    }
}

/// The terms of a list of integers, or the place of the first that is no Boolean where those are asked.
fn terms_of_integers(
    alloc: Global,
    asked: Element,
    integers: &[Integer],
) -> Result<Checked<Vec<Term>>, AllocError>
    ensures { IfOk result (λ found. (env : Environment) → with_value (λ terms. terms.items) found
        ≡ each_of (term_in env asked) (map integer_basic_of integers.now)) }
{
    match first_unasked(asked.kind, integers) {
        Some(at) => Ok(Err(at)),
        None => Ok(Ok(integer_terms(alloc, integers)?)),
    }
}

/// The place of the first integer, where integers aren't asked.
fn first_unasked(kind: Kind, integers: &[Integer]) -> Option<u32>
    ensures truth { kind ≡ Kind.Bool
        → result ≡ option_map (λ integer. integer.at) (slice_get integers.now 0) }
    ensures integer { kind ≡ Kind.Int → result ≡ None }
{
    match kind {
        Kind::Bool => integers.first().map(|integer| integer.at),
        Kind::Int => None,
    }
}

fn integer_terms(alloc: Global, integers: &[Integer]) -> Result<Vec<Term>, AllocError>
    ensures { IfOk result (λ terms. terms.items
        ≡ map (λ integer. Term.Num integer.value) integers.now) }
{
    let mut terms = Vec::with_capacity(alloc, integers.len())?;
    for integer in integers {
        terms.push(Term::Num(integer.value))?;
    }
    Ok(terms)
}

/// The terms of a list of expressions, or the place of the first of a wrong type.
fn terms_of_basics<'a>(
    alloc: Global,
    names: &Names<'a>,
    asked: Element,
    basics: &[Basic<'a>],
) -> Result<Checked<Vec<Term>>, AllocError>
    ensures { IfOk result (λ found. with_value (λ terms. terms.items) found
        ≡ each_of (term_in (environment_of names.now) asked) (map basic_of basics.now)) }
{
    let mut terms = Vec::with_capacity(alloc, basics.len())?;
    for basic in basics {
        match term(names, asked, basic) {
            Some(term) => terms.push(term)?,
            None => return Ok(Err(basic.at())),
        }
    }
    Ok(Ok(terms))
}

/// The numbers that the elements of a list are, or the place of the first that isn't one of this kind.
pub fn numbers_in<'a>(
    alloc: Global,
    names: &Names<'a>,
    kind: Kind,
    elements: &Elements<'a>,
) -> Result<Checked<Vec<i32>>, AllocError>
    ensures { IfOk result (λ found. with_value (λ numbers. numbers.items) found
        ≡ with_value (map number_of) (each_of (term_in (environment_of names.now)
        (record { kind = kind; may_vary = false })) (elements_of elements.now))) }
{
    match elements {
        Elements::Integers(integers) => numbers_of_integers(alloc, kind, integers),
        Elements::Basics(basics) => numbers_of_basics(alloc, names, kind, basics),
    }
}

/// The numbers of a list of integers, or the place of the first that is no Boolean where those are asked.
fn numbers_of_integers(
    alloc: Global,
    kind: Kind,
    integers: &[Integer],
) -> Result<Checked<Vec<i32>>, AllocError>
    ensures { IfOk result (λ found. (env : Environment)
        → with_value (λ numbers. numbers.items) found
        ≡ with_value (map number_of) (each_of (term_in env
        (record { kind = kind; may_vary = false })) (map integer_basic_of integers.now))) }
{
    match first_unasked(kind, integers) {
        Some(at) => Ok(Err(at)),
        None => Ok(Ok(integer_values(alloc, integers)?)),
    }
}

fn integer_values(alloc: Global, integers: &[Integer]) -> Result<Vec<i32>, AllocError>
    ensures { IfOk result (λ values. values.items
        ≡ map (λ integer. integer.value) integers.now) }
{
    let mut values = Vec::with_capacity(alloc, integers.len())?;
    for integer in integers {
        values.push(integer.value)?;
    }
    Ok(values)
}

/// The numbers of a list of expressions, or the place of the first of a wrong type.
fn numbers_of_basics<'a>(
    alloc: Global,
    names: &Names<'a>,
    kind: Kind,
    basics: &[Basic<'a>],
) -> Result<Checked<Vec<i32>>, AllocError>
    ensures { IfOk result (λ found. with_value (λ numbers. numbers.items) found
        ≡ with_value (map number_of) (each_of (term_in (environment_of names.now)
        (record { kind = kind; may_vary = false })) (map basic_of basics.now))) }
{
    let asked = Element {
        kind,
        may_vary: false,
    };
    match terms_of_basics(alloc, names, asked, basics)? {
        Ok(terms) => Ok(Ok(numbers(alloc, &terms)?)),
        Err(at) => Ok(Err(at)),
    }
}

/// The numbers that terms are, none of them a variable.
fn numbers(alloc: Global, terms: &[Term]) -> Result<Vec<i32>, AllocError>
    ensures { IfOk result (λ numbers. numbers.items ≡ map number_of terms.now) }
{
    let mut numbers = Vec::with_capacity(alloc, terms.len())?;
    for term in terms {
        numbers.push(match term {
            Term::Num(number) => *number,
            Term::Var(_) => 0,
        })?;
    }
    Ok(numbers)
}

/// The range of one number.
fn point_of(number: Number) -> Option<(i32, i32)>
    ensures { result ≡ option_map (λ (x : ℤ). (x, x)) (value_of (trees.number_of number)) }
{
    match number {
        Number::Whole(integer) => Some((integer.value, integer.value)),
        Number::Float { .. } => None,
    }
}

/// The ranges of one number each, or nothing where there is a float.
fn points(alloc: Global, numbers: &[Number]) -> Result<Option<Vec<(i32, i32)>>, AllocError>
    ensures { IfOk result (λ found. option_map (λ ranges. ranges.items) found
        ≡ option_map points_of (all_of (map value_of (map trees.number_of numbers.now)))) }
{
    let mut ranges = Vec::with_capacity(alloc, numbers.len())?;
    for number in numbers {
        match point_of(*number) {
            Some(range) => ranges.push(range)?,
            None => return Ok(None),
        }
    }
    Ok(Some(ranges))
}

/// The set of the members of a literal, none of them a float.
fn members(alloc: Global, numbers: &[Number]) -> Result<Option<Dom>, AllocError>
    requires { AllByRecursion NumberFits (map trees.number_of numbers.now) }
    ensures { IfOk result (λ found. found
        ≡ option_map ranges_of (all_of (map value_of (map trees.number_of numbers.now)))) }
{
    match points(alloc, numbers)? {
        Some(ranges) => Ok(Some(Dom::from_ranges(alloc, &ranges)?)),
        None => Ok(None),
    }
}

/// The set that a literal without floats is.
pub fn literal(alloc: Global, set: &SetLiteral) -> Result<Option<Dom>, AllocError>
    requires { SetFits (trees.set_of set.now) }
    ensures { IfOk result (λ found. found ≡ set_in (trees.set_of set.now)) }
{
    match set {
        SetLiteral::Range {
            low: Number::Whole(low),
            high: Number::Whole(high),
        } => Ok(Some(Dom::from_ranges(alloc, &[(low.value, high.value)])?)),
        SetLiteral::Range { .. } => Ok(None),
        SetLiteral::Braces {
            members: numbers,
            ..
        } => members(alloc, numbers),
    }
}

/// A set that there is, to be shared.
fn shared(alloc: Global, set: Option<Dom>) -> Result<Option<Arc<Dom>>, AllocError>
    ensures { IfOk result (λ found. option_map arc_value found ≡ set) }
{
    match set {
        Some(set) => Ok(Some(Arc::new(alloc, set)?)),
        None => Ok(None),
    }
}

/// The set that an expression is.
pub fn set<'a>(
    alloc: Global,
    names: &Names<'a>,
    basic: &Basic<'a>,
) -> Result<Option<Arc<Dom>>, AllocError>
    requires { BasicFits (basic_of basic.now) }
    ensures { IfOk result (λ found. option_map arc_value found
        ≡ entries.set_of (environment_of names.now) (basic_of basic.now)) }
{
    match basic {
        Basic::Small { member, .. } => shared(alloc, members(alloc, member.as_slice())?),
        Basic::Literal(set) => shared(alloc, literal(alloc, set)?),
        Basic::Named { at, bytes } => match names.entry(Name {
            bytes: *bytes,
            at: *at,
        }) {
            Some(Entry::Set(set)) => Ok(Some(set.clone()?)),
            _ => Ok(None),
        },
        Basic::Truth { .. } | Basic::Numeral(_) => Ok(None),
    }
}

/// The list that an entry is, if it is what is asked.
fn entry_list(asked: Element, entry: &Entry) -> Result<Option<Argument>, AllocError>
    ensures { IfOk result (λ found. option_map argument_of found
        ≡ entries.entry_list asked (meant entry.now)) }
{
    match entry {
        Entry::Numbers(list) => list.list(asked),
        Entry::Terms(list) => list.list(asked),
        _ => Ok(None),
    }
}

/// The list that a declared array is, if it is what is asked.
fn named_list<'a>(
    names: &Names<'a>,
    asked: Element,
    name: Name<'a>,
) -> Result<Option<Argument>, AllocError>
    ensures { IfOk result (λ found. option_map argument_of found
        ≡ entries.named (environment_of names.now)
        (entries.entry_list asked) (trees.name_of name.entry)) }
{
    match names.entry(name) {
        Some(entry) => entry_list(asked, entry),
        None => Ok(None),
    }
}

/// The argument that a list of integers is.
fn integer_list(
    alloc: Global,
    asked: Element,
    integers: &[Integer],
) -> Result<Checked<Argument>, AllocError>
    ensures { IfOk result (λ found. (env : Environment) → with_value argument_of found
        ≡ with_value (entries.list_argument asked)
        (each_of (term_in env asked) (map integer_basic_of integers.now))) }
{
    if asked.may_vary {
        let terms = terms_of_integers(alloc, asked, integers)?;
        return Ok(terms.map(|terms| Argument::Terms(Listed::own(terms))));
    }
    let numbers = numbers_of_integers(alloc, asked.kind, integers)?;
    Ok(numbers.map(|numbers| Argument::Numbers(Listed::own(numbers))))
}

/// The argument that a list of expressions is.
fn basic_list<'a>(
    alloc: Global,
    names: &Names<'a>,
    asked: Element,
    basics: &[Basic<'a>],
) -> Result<Checked<Argument>, AllocError>
    ensures { IfOk result (λ found. with_value argument_of found
        ≡ with_value (entries.list_argument asked)
        (each_of (term_in (environment_of names.now) asked) (map basic_of basics.now))) }
{
    if asked.may_vary {
        let terms = terms_of_basics(alloc, names, asked, basics)?;
        return Ok(terms.map(|terms| Argument::Terms(Listed::own(terms))));
    }
    let numbers = numbers_of_basics(alloc, names, asked.kind, basics)?;
    Ok(numbers.map(|numbers| Argument::Numbers(Listed::own(numbers))))
}

/// The argument that an expression is where this is asked, or the place where it is of a wrong type: its first token, but in a
/// list literal for a list the first token of the first element of a wrong type.
pub fn resolve<'a>(
    alloc: Global,
    names: &Names<'a>,
    asked: Asked,
    expression: &Expression<'a>,
) -> Result<Checked<Argument>, AllocError>
    requires { ExpressionFits (expression_of expression.now) }
    ensures { IfOk result (λ found. with_value argument_of found
        ≡ entries.resolve (environment_of names.now) asked (expression_of expression.now)) }
{
    let argument = match (asked, expression) {
        (Asked::One(element), Expression::Scalar(basic)) => {
            term(names, element, basic).map(|term| Argument::One(term))
        }
        (Asked::List(element), Expression::Scalar(Basic::Named { at, bytes })) => {
            let name = Name {
                bytes: *bytes,
                at: *at,
            };
            named_list(names, element, name)?
        }
        (Asked::List(element), Expression::Integers { integers, .. }) => {
            return integer_list(alloc, element, integers);
        }
        (Asked::List(element), Expression::Basics { basics, .. }) => {
            return basic_list(alloc, names, element, basics);
        }
        (Asked::Set, Expression::Scalar(basic)) => {
            set(alloc, names, basic)?.map(|set| Argument::Set(set))
        }
        _ => None,
    };
    Ok(argument.ok_or(expression.at()))
}

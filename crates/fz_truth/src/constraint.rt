//! The truth of one constraint (MiniZinc Handbook, "FlatZinc builtins").
#![tactic(auto, using(crate::proofs::Exchanges::reified_like))]

ghost use Rattle.std.specs.Prelude.{◌≡◌, ◌↔◌, ◌∷◌, IsTrue, map};
ghost use Rattle.fz_spec.specs.Constraints as meaning;
ghost use Rattle.fz_spec.specs.Constraints.{IsTrueOf, HoldsAs, OrReified, term_value, term_values};
ghost use Rattle.fz_spec.specs.Truth.{IsOne, IsResult, SomeByRecursion};
ghost use Rattle.std.specs.List.{AllByRecursion};
ghost use Rattle.fz_spec.specs.declared.shape.Shape.TheVariants as shapes;
ghost use Rattle.fz_model.specs.Arguments.{argument_of};
ghost use Rattle.fz_model.specs.Groups.{constraint_at};

use crate::automaton::{Posted, is_regular};
use crate::counts::are_counts;
use crate::element::{is_number_at, is_term_at};
use crate::inverse::are_inverse;
use crate::numbers::{is_result, relates};
use crate::reified::or_reified;
use crate::sums::weighted_sum;
use crate::table::is_row_of;
use crate::tasks::{Tasks, is_cumulative};
use crate::terms::{all_are, are_different, is_odd, is_satisfied, some_is};
use fz_model::constraint::{Argument, Constraint};
use fz_model::constraints::ConstraintAt;
use fz_model::value_of;
use fz_spec::shape::{Operation, Relation, Shape};
use fz_spec::term::Term;

/// Whether the numbers make a constraint of a model true.
pub(crate) fn is_true_at(constraint: ConstraintAt<'_>, values: &[i32]) -> bool
    ensures { IsTrue result ↔ IsTrueOf values.now (constraint_at constraint.entry) }
{
    match constraint {
        ConstraintAt::Written(constraint) => is_true(constraint, values),
        ConstraintAt::Element(term, set) => set.contains(value_of(term, values)),
    }
}

/// Whether the numbers make a constraint true. With arguments of other forms it is false.
pub fn is_true(constraint: &Constraint, values: &[i32]) -> bool
    ensures { IsTrue result ↔ IsTrueOf values.now constraint.now }
{
    holds_as(constraint.name().shape(), constraint.arguments(), values)
}

/// Whether the numbers make true what a shape says of its arguments.
fn holds_as(shape: Shape, arguments: &[Argument], values: &[i32]) -> bool
    ensures { IsTrue result ↔ HoldsAs shape (map argument_of arguments.now) values.now }
{
    match shape {
        Shape::Rel(relation) => is_related(relation, arguments, values),
        Shape::Dom => is_member(arguments, values),
        Shape::Linear(relation) => is_linear(relation, arguments, values),
        Shape::Clause => is_clause(arguments, values),
        Shape::Or => is_any(arguments, values),
        Shape::And => are_all(arguments, values),
        Shape::Xor => are_odd(arguments, values),
        Shape::Arithmetic(operation) => is_equation(operation, arguments, values),
        Shape::Element => is_element(arguments, values),
        Shape::Extensional => is_extensional(arguments, values),
        Shape::Distinct => are_distinct(arguments, values),
        Shape::Cumulative => are_cumulative(arguments, values),
        Shape::Regular => are_regular(arguments, values),
        Shape::Counts => are_counted(arguments, values),
        Shape::Inverse => are_inverses(arguments, values),
    }
}

fn is_related(relation: Relation, arguments: &[Argument], values: &[i32]) -> bool
    ensures { IsTrue result
        ↔ HoldsAs (shapes.Rel relation) (map argument_of arguments.now) values.now }
{
    match arguments {
        [Argument::One(x), Argument::One(y), rest @ ..] => {
            let (x, y) = (value_of(*x, values), value_of(*y, values));
            or_reified(
                rest,
                relates(relation, i128::from(x), i128::from(y)),
                values,
            )
        }
        _ => false,
    }
}

fn is_member(arguments: &[Argument], values: &[i32]) -> bool
    ensures { IsTrue result ↔ HoldsAs shapes.Dom (map argument_of arguments.now) values.now }
{
    match arguments {
        [Argument::One(x), Argument::Set(set), rest @ ..] => {
            or_reified(rest, set.contains(value_of(*x, values)), values)
        }
        _ => false,
    }
}

fn is_linear(relation: Relation, arguments: &[Argument], values: &[i32]) -> bool
    ensures { IsTrue result
        ↔ HoldsAs (shapes.Linear relation) (map argument_of arguments.now) values.now }
{
    match arguments {
        [
            Argument::Numbers(factors),
            Argument::Terms(terms),
            Argument::One(last),
            rest @ ..,
        ] => {
            let sum = weighted_sum(factors.as_slice(), terms.as_slice(), values);
            let last = i128::from(value_of(*last, values));
            or_reified(rest, relates(relation, sum, last), values)
        }
        _ => false,
    }
}

fn is_clause(arguments: &[Argument], values: &[i32]) -> bool
    ensures { IsTrue result ↔ HoldsAs shapes.Clause (map argument_of arguments.now) values.now }
{
    match arguments {
        [
            Argument::Terms(positives),
            Argument::Terms(negatives),
            rest @ ..,
        ] => {
            let holds = is_satisfied(positives.as_slice(), negatives.as_slice(), values);
            or_reified(rest, holds, values)
        }
        _ => false,
    }
}

fn is_any(arguments: &[Argument], values: &[i32]) -> bool
    ensures { IsTrue result ↔ HoldsAs shapes.Or (map argument_of arguments.now) values.now }
{
    match arguments {
        [Argument::Terms(terms), rest @ ..] => some_or_reified(terms.as_slice(), rest, values),
        [Argument::One(first), rest @ ..] => is_any_of_two(*first, rest, values),
        _ => false,
    }
}

fn is_any_of_two(first: Term, rest: &[Argument], values: &[i32]) -> bool
    ensures { IsTrue result ↔ HoldsAs shapes.Or
        (meaning.One first ∷ map argument_of rest.now) values.now }
{
    match rest {
        [Argument::One(second), rest @ ..] => { some_or_reified(&[first, *second], rest, values) }
        _ => false,
    }
}

/// Whether one of some terms is 1; with one Boolean more, whether this one is 1 exactly where that is so.
fn some_or_reified(terms: &[Term], rest: &[Argument], values: &[i32]) -> bool
    ensures { IsTrue result ↔ OrReified (map argument_of rest.now) values.now
        (SomeByRecursion IsOne (term_values values.now terms.now)) }
{
    or_reified(rest, some_is(terms, 1, values), values)
}

fn are_all(arguments: &[Argument], values: &[i32]) -> bool
    ensures { IsTrue result ↔ HoldsAs shapes.And (map argument_of arguments.now) values.now }
{
    match arguments {
        [Argument::Terms(terms), rest @ ..] => all_or_reified(terms.as_slice(), rest, values),
        [Argument::One(first), rest @ ..] => are_all_of_two(*first, rest, values),
        _ => false,
    }
}

fn are_all_of_two(first: Term, rest: &[Argument], values: &[i32]) -> bool
    ensures { IsTrue result ↔ HoldsAs shapes.And
        (meaning.One first ∷ map argument_of rest.now) values.now }
{
    match rest {
        [Argument::One(second), rest @ ..] => { all_or_reified(&[first, *second], rest, values) }
        _ => false,
    }
}

/// Whether all of some terms are 1; with one Boolean more, whether this one is 1 exactly where that is so.
fn all_or_reified(terms: &[Term], rest: &[Argument], values: &[i32]) -> bool
    ensures { IsTrue result ↔ OrReified (map argument_of rest.now) values.now
        (AllByRecursion IsOne (term_values values.now terms.now)) }
{
    or_reified(rest, all_are(terms, 1, values), values)
}

fn are_odd(arguments: &[Argument], values: &[i32]) -> bool
    ensures { IsTrue result ↔ HoldsAs shapes.Xor (map argument_of arguments.now) values.now }
{
    match arguments {
        [Argument::Terms(terms), rest @ ..] => {
            or_reified(rest, is_odd(terms.as_slice(), values), values)
        }
        _ => false,
    }
}

fn is_equation(operation: Operation, arguments: &[Argument], values: &[i32]) -> bool
    ensures { IsTrue result
        ↔ HoldsAs (shapes.Arithmetic operation) (map argument_of arguments.now) values.now }
{
    match arguments {
        [Argument::One(first), rest @ ..] => is_equation_of(operation, *first, rest, values),
        _ => false,
    }
}

fn is_equation_of(operation: Operation, first: Term, rest: &[Argument], values: &[i32]) -> bool
    ensures { IsTrue result ↔ HoldsAs (shapes.Arithmetic operation)
        (meaning.One first ∷ map argument_of rest.now) values.now }
{
    match rest {
        [Argument::One(second), rest @ ..] => {
            is_equation_of_two(operation, first, *second, rest, values)
        }
        [Argument::Terms(terms), rest @ ..] => {
            result_or_reified(operation, terms.as_slice(), first, rest, values)
        }
        _ => false,
    }
}

fn is_equation_of_two(
    operation: Operation,
    first: Term,
    second: Term,
    rest: &[Argument],
    values: &[i32],
) -> bool
    ensures { IsTrue result ↔ HoldsAs (shapes.Arithmetic operation)
        (meaning.One first ∷ meaning.One second ∷ map argument_of rest.now) values.now }
{
    match rest {
        [] => is_result(operation, &[first], second, values),
        [Argument::One(third), rest @ ..] => {
            result_or_reified(operation, &[first, second], *third, rest, values)
        }
        _ => false,
    }
}

/// Whether a term is what the operation makes of others; with one Boolean more, whether this one is 1 exactly where that is so.
fn result_or_reified(
    operation: Operation,
    operands: &[Term],
    value: Term,
    rest: &[Argument],
    values: &[i32],
) -> bool
    ensures { IsTrue result ↔ OrReified (map argument_of rest.now) values.now
        (IsResult operation (term_values values.now operands.now) (term_value values.now value)) }
{
    or_reified(rest, is_result(operation, operands, value, values), values)
}

fn is_element(arguments: &[Argument], values: &[i32]) -> bool
    ensures { IsTrue result ↔ HoldsAs shapes.Element (map argument_of arguments.now) values.now }
{
    match arguments {
        [Argument::One(index), Argument::Numbers(numbers), rest @ ..] => {
            is_element_of_numbers(*index, numbers.as_slice(), rest, values)
        }
        [Argument::One(index), Argument::Terms(terms), rest @ ..] => {
            is_element_of_terms(*index, terms.as_slice(), rest, values)
        }
        _ => false,
    }
}

fn is_element_of_numbers(index: Term, numbers: &[i32], rest: &[Argument], values: &[i32]) -> bool
    ensures { IsTrue result ↔ HoldsAs shapes.Element
        (meaning.One index ∷ meaning.Numbers numbers.now ∷ map argument_of rest.now) values.now }
{
    match rest {
        [Argument::One(value), rest @ ..] => {
            or_reified(rest, is_number_at(index, numbers, *value, values), values)
        }
        _ => false,
    }
}

fn is_element_of_terms(index: Term, terms: &[Term], rest: &[Argument], values: &[i32]) -> bool
    ensures { IsTrue result ↔ HoldsAs shapes.Element
        (meaning.One index ∷ meaning.Terms terms.now ∷ map argument_of rest.now) values.now }
{
    match rest {
        [Argument::One(value), rest @ ..] => {
            or_reified(rest, is_term_at(index, terms, *value, values), values)
        }
        _ => false,
    }
}

fn is_extensional(arguments: &[Argument], values: &[i32]) -> bool
    ensures { IsTrue result
        ↔ HoldsAs shapes.Extensional (map argument_of arguments.now) values.now }
{
    match arguments {
        [Argument::Terms(terms), Argument::Numbers(table), rest @ ..] => {
            let holds = is_row_of(terms.as_slice(), table.as_slice(), values);
            or_reified(rest, holds, values)
        }
        _ => false,
    }
}

fn are_distinct(arguments: &[Argument], values: &[i32]) -> bool
    ensures { IsTrue result ↔ HoldsAs shapes.Distinct (map argument_of arguments.now) values.now }
{
    match arguments {
        [Argument::Terms(terms), rest @ ..] => {
            or_reified(rest, are_different(terms.as_slice(), values), values)
        }
        _ => false,
    }
}

fn are_cumulative(arguments: &[Argument], values: &[i32]) -> bool
    ensures { IsTrue result
        ↔ HoldsAs shapes.Cumulative (map argument_of arguments.now) values.now }
{
    match arguments {
        [
            Argument::Terms(starts),
            Argument::Terms(durations),
            Argument::Terms(usages),
            Argument::One(bound),
            rest @ ..,
        ] => {
            let tasks = Tasks {
                starts: starts.as_slice(),
                durations: durations.as_slice(),
                usages: usages.as_slice(),
                values,
            };
            or_reified(rest, is_cumulative(tasks, value_of(*bound, values)), values)
        }
        _ => false,
    }
}

fn are_regular(arguments: &[Argument], values: &[i32]) -> bool
    ensures { IsTrue result ↔ HoldsAs shapes.Regular (map argument_of arguments.now) values.now }
{
    match arguments {
        [Argument::Terms(terms), rest @ ..] => are_regular_by(terms.as_slice(), rest, values),
        _ => false,
    }
}

fn are_regular_by(terms: &[Term], rest: &[Argument], values: &[i32]) -> bool
    ensures { IsTrue result ↔ HoldsAs shapes.Regular
        (meaning.Terms terms.now ∷ map argument_of rest.now) values.now }
{
    match rest {
        [
            Argument::One(states),
            Argument::One(symbols),
            Argument::Numbers(next),
            rest @ ..,
        ] => are_regular_by_steps(terms, *states, *symbols, next.as_slice(), rest, values),
        _ => false,
    }
}

fn are_regular_by_steps(
    terms: &[Term],
    states: Term,
    symbols: Term,
    next: &[i32],
    rest: &[Argument],
    values: &[i32],
) -> bool
    ensures { IsTrue result ↔ HoldsAs shapes.Regular (meaning.Terms terms.now
        ∷ meaning.One states ∷ meaning.One symbols ∷ meaning.Numbers next.now
        ∷ map argument_of rest.now) values.now }
{
    match rest {
        [Argument::One(start), Argument::Set(accepting), rest @ ..] => {
            let posted = Posted {
                states,
                symbols,
                next,
                start: *start,
                accepting,
            };
            or_reified(rest, is_regular(posted, terms, values), values)
        }
        _ => false,
    }
}

fn are_counted(arguments: &[Argument], values: &[i32]) -> bool
    ensures { IsTrue result ↔ HoldsAs shapes.Counts (map argument_of arguments.now) values.now }
{
    match arguments {
        [
            Argument::Terms(terms),
            Argument::Numbers(cover),
            Argument::Terms(counts),
            rest @ ..,
        ] => {
            let (terms, counts) = (terms.as_slice(), counts.as_slice());
            let holds = are_counts(terms, cover.as_slice(), counts, values);
            or_reified(rest, holds, values)
        }
        _ => false,
    }
}

fn are_inverses(arguments: &[Argument], values: &[i32]) -> bool
    ensures { IsTrue result ↔ HoldsAs shapes.Inverse (map argument_of arguments.now) values.now }
{
    match arguments {
        [Argument::Terms(firsts), Argument::Terms(seconds), rest @ ..] => {
            let holds = are_inverse(firsts.as_slice(), seconds.as_slice(), values);
            or_reified(rest, holds, values)
        }
        _ => false,
    }
}

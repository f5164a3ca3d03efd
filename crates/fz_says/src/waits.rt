//! What is waited for.
ghost use Rattle.std.specs.Prelude.{◌≡◌, ◌||◌, ◌++◌, [], ◌∷◌, IfOk, OnOk, map};
ghost use Rattle.fz_model.specs.Arguments.{argument_of};
ghost use Rattle.fz_strength.specs.Clauses.{clause, disjunction, conjunction, clause_terms};
ghost use Rattle.fz_strength.specs.declared.event.Event.TheVariants.{Fixed};
ghost use Rattle.fz_strength.specs.Events.{wait_for, waits_for};
ghost use Rattle.fz_spec.specs.Constraints.{terms_of, terms_among};
ghost use Rattle.fz_strength.specs.Operations.{operand_event};
ghost use Rattle.fz_strength.specs.Relations.{event_of, reified_event};
ghost use Rattle.fz_strength.specs.Sayings.{waits_of};
ghost use Rattle.fz_strength.specs.Sums.{is_difference, is_far, is_plane, sum_event_of, left_terms, left_factors};
ghost use Rattle.fz_says.specs.Said.{said_by, waits_in};

use crate::saying::Saying;
use fz_model::constraint::Argument;
use fz_spec::shape::{Operation, Relation};
use fz_spec::term::Term;
use fz_strength::event::Event;
use std::alloc::{AllocError, Global};

/// A variable, and the kind of its changes that is waited for.
#[derive(Clone, Copy, Debug, PartialEq, Eq)]
pub struct Wait {
    pub variable: u32,
    pub event: Event,
}

impl<'m> Saying<'m> {
    /// The changes that may break its line.
    ///
    /// # Errors
    /// `AllocError` where there is no memory.
    pub fn waits(&self, alloc: Global) -> Result<Vec<Wait>, AllocError>
        ensures { IfOk result (λ v. waits_in v.items ≡ waits_of (said_by self.now)) }
    {
        let mut waits = Vec::new(alloc);
        add_said(&mut waits, self)?;
        Ok(waits)
    }
}

/// Adds what a saying waits for.
fn add_said(waits: &mut Vec<Wait>, saying: &Saying) -> Result<(), AllocError>
    ensures { OnOk result (waits_in waits.new.items
        ≡ waits_in waits.old.items ++ waits_of (said_by saying.now)) }
{
    match saying {
        Saying::Compare(relation, x, y) => add_all(waits, event_of(*relation), &[*x, *y]),
        Saying::CompareIf(relation, x, y, r) => {
            add_all(waits, reified_event(*relation), &[*x, *y])?;
            add(waits, Event::Any, *r)
        }
        Saying::Member(x, _) => add(waits, Event::Fixed, *x),
        Saying::MemberIf(x, _, r) => add_all(waits, Event::Any, &[*x, *r]),
        Saying::SumIf(_, _, terms, _, r) => {
            add_all(waits, Event::Bound, terms)?;
            add(waits, Event::Any, *r)
        }
        Saying::Clause(positives, negatives, r) => { add_clause(waits, positives, negatives, *r) }
        Saying::AnyOf(terms, r) | Saying::AllOf(terms, r) => {
            add_signed(waits, terms.as_slice(), *r)
        }
        Saying::Equals(operation, terms, z) => {
            add(waits, Event::Bound, *z)?;
            add_all(waits, operand_event(*operation), terms.as_slice())
        }
        Saying::Odd(terms) | Saying::Differ(terms) => add_all(waits, Event::Fixed, terms),
        Saying::DifferByBounds(terms) => add_all(waits, Event::Bound, terms),
        Saying::Select(_, index, value) => add_all(waits, Event::Any, &[*index, *value]),
        Saying::SelectTerm(terms, index, value) => {
            add(waits, Event::Any, *index)?;
            add(waits, Event::Any, *value)?;
            add_all(waits, Event::Any, terms.as_slice())
        }
        Saying::Row(terms, _) | Saying::Regular(_, terms) => add_all(waits, Event::Any, terms),
        Saying::Share(starts, durations, usages, bound) => {
            add_all(waits, Event::Bound, starts)?;
            add_all(waits, Event::Bound, durations)?;
            add_all(waits, Event::Bound, usages)?;
            add(waits, Event::Bound, *bound)
        }
        Saying::Inverse(firsts, seconds) => {
            add_all(waits, Event::Any, firsts)?;
            add_all(waits, Event::Any, seconds)
        }
        Saying::Count(terms, _, counts) => {
            add_all(waits, Event::Any, terms)?;
            add_all(waits, Event::Bound, counts)
        }
        Saying::SumByNumbers(_, terms, last) => add_left(waits, Event::Any, terms, *last),
        Saying::Other(constraint) => add_arguments(waits, constraint.arguments()),
        Saying::Sum(relation, factors, terms, last) => {
            let event = sum_event(*relation, factors, *last);
            add_left(waits, event, terms, *last)
        }
    }
}

/// The changes of its operands that an operation waits for.
fn operand_event(operation: Operation) -> Event
    ensures { result ≡ operand_event operation }
{
    match operation {
        Operation::Abs => Event::Any,
        _ => Event::Bound,
    }
}

/// The changes of two terms that a relation of them waits for.
fn event_of(relation: Relation) -> Event
    ensures { result ≡ event_of relation }
{
    match relation {
        Relation::Equal => Event::Any,
        Relation::NotEqual => Event::Fixed,
        Relation::AtMost | Relation::Below => Event::Bound,
    }
}

/// The changes of two terms that a Boolean about their relation waits for.
fn reified_event(relation: Relation) -> Event
    ensures { result ≡ reified_event relation }
{
    match relation {
        Relation::Equal | Relation::NotEqual => Event::Any,
        Relation::AtMost | Relation::Below => Event::Bound,
    }
}

/// The changes of its terms that a sum waits for.
fn sum_event(relation: Relation, factors: &[i32], last: Term) -> Event
    ensures { result ≡ sum_event_of relation (left_factors factors.now last) }
{
    match relation {
        Relation::Equal if is_kept_whole(factors, last) => Event::Any,
        Relation::NotEqual => Event::Fixed,
        Relation::Equal | Relation::AtMost | Relation::Below => Event::Bound,
    }
}

/// Whether an equation of these factors is a difference of two terms or a plane of three.
fn is_kept_whole(factors: &[i32], last: Term) -> bool
    ensures { result ≡ (is_difference (left_factors factors.now last)
        || is_plane (left_factors factors.now last)) }
{
    match (last, factors) {
        (Term::Num(_), [k, l]) => is_difference(*k, *l),
        (Term::Var(_), [l]) => is_difference(-1, *l),
        (Term::Num(_), [k, l, m]) => is_plane(*k, *l, *m),
        (Term::Var(_), [l, m]) => is_plane(-1, *l, *m),
        _ => false,
    }
}

/// Whether two of three factors make a difference, and the third is farther from 0.
fn is_plane(k: i32, l: i32, m: i32) -> bool
    ensures { result ≡ is_plane (k ∷ l ∷ m ∷ []) }
{
    is_far(k) && is_difference(l, m)
        || is_far(l) && is_difference(k, m)
        || is_far(m) && is_difference(k, l)
}

/// Whether two factors make a difference.
fn is_difference(k: i32, l: i32) -> bool
    ensures { result ≡ is_difference (k ∷ l ∷ []) }
{
    match (k, l) {
        (1, -1) | (-1, 1) => true,
        _ => false,
    }
}

/// Whether a factor is farther from 0 than 1.
fn is_far(k: i32) -> bool
    ensures { result ≡ is_far k }
{
    k < -1 || 1 < k
}

/// Adds a change of a term.
fn add(waits: &mut Vec<Wait>, event: Event, term: Term) -> Result<(), AllocError>
    ensures { OnOk result (waits_in waits.new.items
        ≡ waits_in waits.old.items ++ wait_for event term) }
{
    if let Term::Var(variable) = term {
        waits.push(Wait { variable, event })?;
    }
    Ok(())
}

/// Adds a change of each of these terms.
fn add_all(waits: &mut Vec<Wait>, event: Event, terms: &[Term]) -> Result<(), AllocError>
    ensures { OnOk result (waits_in waits.new.items
        ≡ waits_in waits.old.items ++ waits_for event terms.now) }
{
    for term in terms {
        add(waits, event, *term)?;
    }
    Ok(())
}

/// Adds a change of the terms of a sum and of the term that it is compared with.
fn add_left(
    waits: &mut Vec<Wait>,
    event: Event,
    terms: &[Term],
    last: Term,
) -> Result<(), AllocError>
    ensures { OnOk result (waits_in waits.new.items
        ≡ waits_in waits.old.items ++ waits_for event (left_terms terms.now last)) }
{
    add(waits, event, last)?;
    add_all(waits, event, terms)
}

/// Adds that any term among arguments gets fixed.
fn add_arguments(waits: &mut Vec<Wait>, arguments: &[Argument]) -> Result<(), AllocError>
    ensures { OnOk result (waits_in waits.new.items ≡ waits_in waits.old.items
        ++ waits_for Fixed (terms_among (map argument_of arguments.now))) }
{
    for argument in arguments {
        match argument {
            Argument::One(term) => add(waits, Event::Fixed, *term)?,
            Argument::Terms(terms) => add_all(waits, Event::Fixed, terms.as_slice())?,
            Argument::Numbers(_) | Argument::Set(_) => {}
        }
    }
    Ok(())
}

/// Adds that any term of a clause gets fixed.
fn add_clause(
    waits: &mut Vec<Wait>,
    positives: &[Term],
    negatives: &[Term],
    r: Term,
) -> Result<(), AllocError>
    ensures { OnOk result (waits_in waits.new.items ≡ waits_in waits.old.items
        ++ waits_for Fixed (clause_terms (clause positives.now negatives.now r))) }
{
    add_signs(waits, positives, negatives, r)
}

/// Adds that a result gets fixed, or any of two lists of terms.
fn add_signs(
    waits: &mut Vec<Wait>,
    positives: &[Term],
    negatives: &[Term],
    r: Term,
) -> Result<(), AllocError>
    ensures { OnOk result (waits_in waits.new.items ≡ waits_in waits.old.items
        ++ (wait_for Fixed r ++ (waits_for Fixed positives.now ++ waits_for Fixed negatives.now))) }
{
    add(waits, Event::Fixed, r)?;
    add_all(waits, Event::Fixed, positives)?;
    add_all(waits, Event::Fixed, negatives)
}

/// Adds that any term of a disjunction or a conjunction gets fixed.
fn add_signed(waits: &mut Vec<Wait>, terms: &[Term], r: Term) -> Result<(), AllocError>
    ensures any { OnOk result (waits_in waits.new.items ≡ waits_in waits.old.items
        ++ waits_for Fixed (clause_terms (disjunction terms.now r))) }
    ensures all { OnOk result (waits_in waits.new.items ≡ waits_in waits.old.items
        ++ waits_for Fixed (clause_terms (conjunction terms.now r))) }
{
    add_terms(waits, terms, r)
}

/// Adds that a result gets fixed, or any of these terms.
fn add_terms(waits: &mut Vec<Wait>, terms: &[Term], r: Term) -> Result<(), AllocError>
    ensures { OnOk result (waits_in waits.new.items ≡ waits_in waits.old.items
        ++ (wait_for Fixed r ++ waits_for Fixed terms.now)) }
{
    add(waits, Event::Fixed, r)?;
    add_all(waits, Event::Fixed, terms)
}

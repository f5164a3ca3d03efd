//! Narrowing a store by what is found of tasks.
ghost use Rattle.std.specs.Prelude.{◌≡◌, ◌<◌, ℤ, pos, ◌≤ℤ◌, ◌<ℤ◌, List, length, slice_get, Some, IfOk, IsTrue};
ghost use Rattle.fz_dom.specs.Shape.{least};
ghost use Rattle.fz_spec.specs.Constraints.{term_value};
ghost use Rattle.fz_strength.specs.Cumulatives.{terms_of_tasks};
ghost use Rattle.fz_strength.specs.Domains.{term_set, Within, IsTermOf};
ghost use Rattle.fz_strength.specs.Events.{AllFixed};
ghost use Rattle.fz_prop.specs.Answers.{IsAnswerOf, IsCorrectOf};
ghost use Rattle.fz_prop.specs.Stores.{Shrinks};
ghost use Rattle.fz_cumulative.specs.Cumulatives.{AreTermsOf, TasksShare, TasksRest};
ghost use Rattle.fz_cumulative.specs.Findings.{IsNegativeOf};
ghost use Rattle.fz_cumulative.specs.Outcomes.{answer_to, IsNarrowed, IsBelow};

use crate::finding::{Negative, are_within, first_negative};
use crate::profile::profile;
use crate::starting::keep_starts;
use crate::tasks::open_tasks;
use fz_prop::terms::{are_fixed, greatest_of, keep_from, least_of};
use fz_prop::{Answer, Change, Store};
use fz_spec::term::Term;
use std::alloc::{AllocError, Global};

/// Narrows a store so that tasks use no more than a bound.
///
/// # Errors
/// `AllocError` where there is no memory; the store is then narrower, and no assignment is lost.
pub fn keep_shared(
    alloc: Global,
    store: &mut Store,
    starts: &[Term],
    durations: &[Term],
    usages: &[Term],
    bound: Term,
) -> Result<Answer, AllocError>
    requires { AreTermsOf (length store.old.doms) starts.now durations.now usages.now bound }
    ensures shrinks { Shrinks store.old store.new }
    ensures correct { IsCorrectOf (TasksShare starts.now durations.now usages.now bound)
        store.old.doms store.new.doms }
    ensures answer { IfOk result (λ r.
        IsAnswerOf r (TasksShare starts.now durations.now usages.now bound)
        (TasksRest starts.now durations.now usages.now bound) store.old.doms store.new.doms) }
{
    let _ = store.doms();
    let tasks = open_tasks(alloc, store, starts, durations, usages)?;
    let (low, high) = (least_of(store, bound), greatest_of(store, bound));
    if let Some(negative) = first_negative(&tasks, low) {
        let term = negative_term(store, negative, starts, durations, usages, bound);
        return raise(store, term, 0);
    }
    let loads = profile(alloc, &tasks)?;
    if !are_within(&loads, high) {
        return Ok(Answer::Failed);
    }
    match keep_starts(store, starts, &tasks, &loads, high)? {
        Change::Same => Ok(Answer::rested(are_all_fixed(store, starts, durations, usages, bound))),
        Change::Changed => Ok(Answer::NoFix),
        Change::Wiped => Ok(Answer::Failed),
    }
}

/// The term at a place.
fn term_at(terms: &[Term], place: usize) -> Term
    requires { place < length terms.now }
    ensures { slice_get terms.now place ≡ Some result }
{
    terms[place]
}

/// The term that may be negative.
fn negative_term(
    store: &Store,
    negative: Negative,
    starts: &[Term],
    durations: &[Term],
    usages: &[Term],
    bound: Term,
) -> Term
    requires inside { AreTermsOf (length store.now.doms)
        starts.now durations.now usages.now bound }
    requires found { IsNegativeOf store.now.doms starts.now durations.now usages.now bound negative }
    ensures { IsBelow (pos 0) result (TasksShare starts.now durations.now usages.now bound)
        store.now.doms }
{
    let _ = store.doms();
    match negative {
        Negative::Bound => bound,
        Negative::Duration(place) => term_at(durations, place),
        Negative::Usage(place) => term_at(usages, place),
    }
}

/// Keeps the numbers of a term at or above a value, where its least is below.
fn raise(store: &mut Store, term: Term, value: i32) -> Result<Answer, AllocError>
    requires inside { IsTermOf (length store.old.doms) term }
    requires moves { least (term_set store.old.doms term) <ℤ value }
    ensures shrinks { Shrinks store.old store.new }
    ensures kept { (a : List ℤ) → Within store.old.doms a → value ≤ℤ term_value a term
        → Within store.new.doms a }
    ensures answer { IfOk result
        (λ r. IsNarrowed r term (λ x. value ≤ℤ x) store.old.doms store.new.doms) }
{
    let _ = store.doms();
    Ok(changed(keep_from(store, term, value)?))
}

/// What a run answers that changed a term.
fn changed(change: Change) -> Answer
    ensures { result ≡ answer_to change }
{
    match change {
        Change::Wiped => Answer::Failed,
        Change::Same | Change::Changed => Answer::NoFix,
    }
}

/// Whether one number is left of each term of tasks and of the bound.
fn are_all_fixed(
    store: &Store,
    starts: &[Term],
    durations: &[Term],
    usages: &[Term],
    bound: Term,
) -> bool
    requires { AreTermsOf (length store.now.doms) starts.now durations.now usages.now bound }
    ensures { IsTrue result
        → AllFixed store.now.doms (terms_of_tasks starts.now durations.now usages.now bound) }
{
    are_fixed(store, starts)
        && are_fixed(store, durations)
        && are_fixed(store, usages)
        && are_fixed(store, &[bound])
}

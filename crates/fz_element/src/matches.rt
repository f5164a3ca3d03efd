//! The indices and the numbers that have a match.
ghost use Rattle.std.specs.Prelude.{◌≡◌, ◌↔◌, ℤ, ◌++◌, length, IfOk, OnOk, MatchOption};
ghost use Rattle.std.specs.List.{AllByRecursion};
ghost use Rattle.fz_sets.specs.Sets.{IsInSet};
ghost use Rattle.fz_dom.specs.Shape.{IsDomain};
ghost use Rattle.fz_strength.specs.Domains.{term_set, IsTermOf};
ghost use Rattle.fz_strength.specs.VariableElements.{IsMatch};
ghost use Rattle.fz_prop.specs.Stores.{FitsTerm};
ghost use Rattle.fz_element.specs.Matching.{AreMatches, AreShared, IsMatchedAt};
ghost use Rattle.fz_element.specs.Selecting.{Has, AreWithin};

use crate::numbers::Numbers;
use crate::words::term_at;
use fz_dom::{Change, Dom};
use fz_prop::Store;
use fz_prop::indices::{first_index, index_end};
use fz_prop::terms::has;
use fz_spec::term::Term;
use std::alloc::{AllocError, Global};

/// The indices and the numbers of matches.
#[derive(Drop)]
pub struct Matches {
    pub indices: Numbers,
    pub numbers: Numbers,
}

/// The indices and the numbers of all matches.
///
/// # Errors
/// `AllocError` where there is no memory.
pub fn matches_of(
    alloc: Global,
    store: &Store,
    index: Term,
    terms: &[Term],
    value: Term,
) -> Result<Matches, AllocError>
    requires index { IsTermOf (length store.now.doms) index }
    requires terms { AllByRecursion (IsTermOf (length store.now.doms)) terms.now }
    requires value { IsTermOf (length store.now.doms) value }
    requires fits_index { FitsTerm index }
    requires fits_terms { AllByRecursion FitsTerm terms.now }
    requires fits_value { FitsTerm value }
    ensures matches { IfOk result (λ m. AreMatches terms.now index value store.now.doms
        (λ i. Has m.indices i) (λ n. Has m.numbers n)) }
    ensures indices { IfOk result (λ m. AreWithin m.indices) }
    ensures numbers { IfOk result (λ m. AreWithin m.numbers) }
{
    let _ = store.doms();
    let (first, end) = (
        first_index(store, index),
        index_end(store, index, terms.len()),
    );
    let wanted = copy_of(alloc, store, value)?;
    let mut places = Vec::new(alloc);
    let mut found = Vec::new(alloc);
    for place in first..end {
        match match_at(alloc, store, index, terms, value, &wanted, place)? {
            Some(numbers) => {
                places.push((place, place))?;
                add_ranges(&mut found, &numbers)?;
            }
            None => {}
        }
    }
    let indices = Dom::from_ranges(alloc, &places)?;
    let numbers = Dom::from_ranges(alloc, &found)?;
    Ok(Matches {
        indices: Numbers::Far(indices),
        numbers: Numbers::Far(numbers),
    })
}

/// The numbers that match at an index, if there are some; what is left of the value is a domain.
fn match_at(
    alloc: Global,
    store: &Store,
    index: Term,
    terms: &[Term],
    value: Term,
    wanted: &Dom,
    place: i32,
) -> Result<Option<Dom>, AllocError>
    requires index { IsTermOf (length store.now.doms) index }
    requires terms { AllByRecursion (IsTermOf (length store.now.doms)) terms.now }
    requires fits { AllByRecursion FitsTerm terms.now }
    requires wanted { wanted.now ≡ term_set store.now.doms value }
    ensures { IfOk result (λ o. MatchOption o
        (IsMatchedAt terms.now index value store.now.doms place → ⊥)
        (λ d. IsMatchedAt terms.now index value store.now.doms place
        × IsDomain d
        × ((n : ℤ) → IsInSet d n ↔ IsMatch terms.now index value store.now.doms place n))) }
{
    let _ = value;
    let Some(term) = term_at(terms, place) else {
        return Ok(None);
    };
    if !has(store, index, place) {
        return Ok(None);
    }
    shared(alloc, store, term, wanted)
}

/// The numbers that are left of a term and in a domain, if there are some.
fn shared(alloc: Global, store: &Store, term: Term, wanted: &Dom) -> Result<Option<Dom>, AllocError>
    requires term { IsTermOf (length store.now.doms) term }
    requires fits { FitsTerm term }
    ensures { IfOk result (λ o. MatchOption o
        ((n : ℤ) → IsInSet (term_set store.now.doms term) n → IsInSet wanted.now n → ⊥)
        (λ d. AreShared (term_set store.now.doms term) wanted.now d)) }
{
    let mut numbers = copy_of(alloc, store, term)?;
    match numbers.keep(wanted)? {
        Change::Wiped => Ok(None),
        Change::Same | Change::Changed => Ok(Some(numbers)),
    }
}

/// What is left of a term, as a domain.
pub fn copy_of(alloc: Global, store: &Store, term: Term) -> Result<Dom, AllocError>
    requires term { IsTermOf (length store.now.doms) term }
    requires fits { FitsTerm term }
    ensures { IfOk result (λ d. d ≡ term_set store.now.doms term) }
{
    match term {
        Term::Var(variable) => store.dom(variable).copy(),
        Term::Num(number) => Dom::from_ranges(alloc, &[(number, number)]),
    }
}

/// Adds the ranges of a domain to a list.
fn add_ranges(list: &mut Vec<(i32, i32)>, dom: &Dom) -> Result<(), AllocError>
    ensures { OnOk result (list.new.items ≡ list.old.items ++ dom.now) }
{
    for range in dom.ranges() {
        list.push(range)?;
    }
    Ok(())
}

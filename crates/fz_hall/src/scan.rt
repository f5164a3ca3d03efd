//! Narrowing a store by each interval from the least number of a term to the greatest of a term, until one of them narrows it.
ghost use Rattle.std.specs.Prelude.{length, IfOk};
ghost use Rattle.std.specs.List.{AllByRecursion};
ghost use Rattle.fz_strength.specs.Differences.{AreSpread};
ghost use Rattle.fz_prop.specs.Answers.{IsCorrectOf};
ghost use Rattle.fz_prop.specs.Outcomes.{IsOutcome};
ghost use Rattle.fz_strength.specs.Domains.{IsTermOf};
ghost use Rattle.fz_prop.specs.Stores.{Shrinks};
ghost use Rattle.fz_alldiff.specs.Differing.{IsDifferent};
ghost use Rattle.fz_hall.specs.Lefts.{IfSame, AreSpreadFrom};

use crate::interval::{Interval, ends_of};
use crate::narrow::keep_interval;
use fz_prop::{Change, Store};
use fz_spec::term::Term;
use std::alloc::AllocError;

/// Narrows a store by the first such interval that narrows it.
///
/// # Errors
/// `AllocError` where there is no memory; the store is then narrower, and no assignment is lost.
pub fn keep_all(store: &mut Store, terms: &[Term]) -> Result<Change, AllocError>
    requires { AllByRecursion (IsTermOf (length store.old.doms)) terms.now }
    ensures shrinks { Shrinks store.old store.new }
    ensures correct { IsCorrectOf (IsDifferent terms.now) store.old.doms store.new.doms }
    ensures outcome { IfOk result
        (λ r. IsOutcome r (IsDifferent terms.now) store.old store.new) }
    ensures spread { IfOk result (λ r. IfSame r (AreSpread terms.now store.new.doms)) }
{
    let _ = store.doms();
    for term in terms {
        let low = ends_of(store, *term).low;
        match keep_from_low(store, terms, low)? {
            Change::Same => {}
            change => return Ok(change),
        }
    }
    Ok(Change::Same)
}

/// The same of those from one number on.
fn keep_from_low(store: &mut Store, terms: &[Term], low: i32) -> Result<Change, AllocError>
    requires { AllByRecursion (IsTermOf (length store.old.doms)) terms.now }
    ensures shrinks { Shrinks store.old store.new }
    ensures correct { IsCorrectOf (IsDifferent terms.now) store.old.doms store.new.doms }
    ensures outcome { IfOk result
        (λ r. IsOutcome r (IsDifferent terms.now) store.old store.new) }
    ensures spread { IfOk result
        (λ r. IfSame r (AreSpreadFrom terms.now store.new.doms low)) }
{
    for term in terms {
        let high = ends_of(store, *term).high;
        match keep_interval(store, terms, Interval { low, high })? {
            Change::Same => {}
            change => return Ok(change),
        }
    }
    Ok(Change::Same)
}

//! The values of a cover and the numbers of places that have them.
ghost use Rattle.std.specs.Prelude.{length, IfOk, IfSome};
ghost use Rattle.std.specs.List.{AllByRecursion};
ghost use Rattle.fz_strength.specs.Counts.{AreCountLines};
ghost use Rattle.fz_strength.specs.Domains.{IsTermOf};
ghost use Rattle.fz_prop.specs.Answers.{IsAnswerOf, IsCorrectOf};
ghost use Rattle.fz_prop.specs.Stores.{Shrinks};
ghost use Rattle.fz_counts.specs.Counting.{AreCountsOf};
ghost use Rattle.fz_counts.specs.Covers.{IsCoverOf};

use crate::count::keep_count;
use crate::cover::Cover;
use crate::tally::tally_of;
use crate::whole::keep_whole;
use fz_prop::{Answer, Change, Store};
use fz_spec::term::Term;
use std::alloc::AllocError;

/// Narrows a store so that counts are the numbers of the terms that have the values of a cover. Where as many places are sure to have
/// each value as may have it, they hold for good.
///
/// # Errors
/// `AllocError` where there is no memory; the store is then narrower, and no assignment is lost.
pub fn keep_counts(
    store: &mut Store,
    terms: &[Term],
    cover: &[i32],
    counts: &[Term],
    whole: Option<Cover>,
) -> Result<Answer, AllocError>
    requires terms { AllByRecursion (IsTermOf (length store.old.doms)) terms.now }
    requires counts { AllByRecursion (IsTermOf (length store.old.doms)) counts.now }
    requires whole { IfSome whole (λ c. IsCoverOf c cover.now) }
    ensures shrinks { Shrinks store.old store.new }
    ensures correct { IsCorrectOf (AreCountsOf terms.now cover.now counts.now)
        store.old.doms store.new.doms }
    ensures answer { IfOk result
        (λ r. IsAnswerOf r (AreCountsOf terms.now cover.now counts.now)
        (AreCountLines terms.now cover.now counts.now) store.old.doms store.new.doms) }
{
    if cover.len() != counts.len() {
        return Ok(Answer::Failed);
    }
    let mut has_changed = false;
    let mut are_decided = true;
    for place in 0..cover.len() {
        let _ = store.doms();
        let tally = tally_of(store, terms, cover[place]);
        match keep_count(store, terms, cover[place], counts[place], tally)? {
            Change::Wiped => return Ok(Answer::Failed),
            Change::Changed => has_changed = true,
            Change::Same => {}
        }
        let _ = store.doms();
        are_decided &= tally.is_decided();
    }
    let _ = store.doms();
    if are_decided {
        return Ok(Answer::Subsumed);
    }
    if has_changed {
        return Ok(Answer::NoFix);
    }
    match keep_whole(store, terms, cover, counts, whole)? {
        Change::Wiped => Ok(Answer::Failed),
        Change::Changed => Ok(Answer::NoFix),
        Change::Same => Ok(Answer::Fix),
    }
}

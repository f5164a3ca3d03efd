//! All counts of a cover together.
ghost use Rattle.std.specs.Prelude.{◌≡◌, ◌⊎◌, ◌≤ℤ◌, ◌<ℤ◌, ◌-ℤ◌, pos, length, IfOk, IfSome, IsNone};
ghost use Rattle.std.specs.List.{AllByRecursion};
ghost use Rattle.fz_strength.specs.Domains.{IsTermOf};
ghost use Rattle.fz_prop.specs.Answers.{IsCorrectOf};
ghost use Rattle.fz_prop.specs.Outcomes.{IsOutcome};
ghost use Rattle.fz_prop.specs.Stores.{Shrinks};
ghost use Rattle.fz_counts.specs.Counting.{AreCountsOf};
ghost use Rattle.fz_counts.specs.Covers.{IsCoverOf, IsSum};

use crate::cover::Cover;
use crate::ends::{Ends, Slack, ends_of, keep_near};
use crate::mixed::settle_mixed;
use crate::places::Choice;
use crate::standing::cover_tally;
use crate::tally::Tally;
use fz_prop::{Change, Store};
use fz_spec::term::Term;
use std::alloc::AllocError;

/// Narrows a store by the sum of the counts, which is the number of places that have a value of the cover. It says nothing where the
/// cover isn't known as a whole.
///
/// # Errors
/// `AllocError` where there is no memory; the store is then narrower, and no assignment is lost.
pub fn keep_whole(
    store: &mut Store,
    terms: &[Term],
    values: &[i32],
    counts: &[Term],
    whole: Option<Cover>,
) -> Result<Change, AllocError>
    requires terms { AllByRecursion (IsTermOf (length store.old.doms)) terms.now }
    requires counts { AllByRecursion (IsTermOf (length store.old.doms)) counts.now }
    requires whole { IfSome whole (λ c. IsCoverOf c values.now) }
    ensures shrinks { Shrinks store.old store.new }
    ensures correct { IsCorrectOf (AreCountsOf terms.now values.now counts.now)
        store.old.doms store.new.doms }
    ensures outcome { IfOk result
        (λ r. IsOutcome r (AreCountsOf terms.now values.now counts.now) store.old store.new) }
{
    let Some(cover) = whole else {
        return Ok(Change::Same);
    };
    let _ = store.doms();
    let tally = cover_tally(store, terms, cover);
    let ends = ends_of(store, counts);
    let Some(slack) = slack_of(tally, ends) else {
        return Ok(Change::Wiped);
    };
    match keep_near(store, counts, slack)? {
        Change::Same => {}
        change => return Ok(change),
    }
    if tally.is_decided() {
        return Ok(Change::Same);
    }
    if slack.below == 0 {
        return settle_mixed(store, terms, values, cover, Choice::Without);
    }
    if slack.above == 0 {
        return settle_mixed(store, terms, values, cover, Choice::With);
    }
    Ok(Change::Same)
}

/// How far counts may lie from their ends where their sum is a number of a tally; `None` exactly where it can't be.
fn slack_of(tally: Tally, ends: Ends) -> Option<Slack>
    requires low { IsSum ends.lowest }
    requires high { IsSum ends.highest }
    ensures none { IsNone result → (pos tally.most <ℤ ends.lowest) ⊎ (ends.highest <ℤ pos tally.fewest) }
    ensures above { IfSome result (λ s. s.above ≡ pos tally.most -ℤ ends.lowest) }
    ensures below { IfSome result (λ s. s.below ≡ ends.highest -ℤ pos tally.fewest) }
    ensures some { IfSome result (λ s. (pos 0 ≤ℤ s.above) × (pos 0 ≤ℤ s.below)) }
{
    let above = tally.most as i128 - ends.lowest;
    if above < 0 {
        return None;
    }
    let below = ends.highest - tally.fewest as i128;
    if below < 0 {
        return None;
    }
    Some(Slack { above, below })
}

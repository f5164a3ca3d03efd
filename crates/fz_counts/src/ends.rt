//! The least and the greatest sum of terms, and terms near their ends.
ghost use Rattle.std.specs.Prelude.{◌≡◌, ◌↔◌, ℤ, ◌≤ℤ◌, ◌+ℤ◌, ◌-ℤ◌, pos, length, IfOk, OnErr};
ghost use Rattle.std.specs.List.{AllByRecursion};
ghost use Rattle.fz_strength.specs.Domains.{term_set, IsTermOf};
ghost use Rattle.fz_prop.specs.Answers.{IsCorrectOf};
ghost use Rattle.fz_prop.specs.Outcomes.{IsOutcome};
ghost use Rattle.fz_prop.specs.Stores.{Shrinks, IsTermChange};
ghost use Rattle.fz_counts.specs.Covers as covers;
ghost use Rattle.fz_counts.specs.Covers.{AllNear, IsNearEnds, IsSum};

use fz_prop::terms::{greatest_of, keep_range, least_of};
use fz_prop::{Change, Store};
use fz_spec::term::Term;
use std::alloc::AllocError;

/// The sums of the least numbers of terms, and of the greatest.
#[derive(Clone, Copy)]
pub struct Ends {
    pub lowest: i128,
    pub highest: i128,
}

/// How far a number may lie above the least that is left of a term, and below the greatest.
#[derive(Clone, Copy)]
pub struct Slack {
    pub above: i128,
    pub below: i128,
}

/// The sums of the least numbers of terms, and of the greatest.
pub fn ends_of(store: &Store, terms: &[Term]) -> Ends
    requires { AllByRecursion (IsTermOf (length store.now.doms)) terms.now }
    ensures lowest { result.lowest ≡ covers.lowest store.now.doms terms.now }
    ensures highest { result.highest ≡ covers.highest store.now.doms terms.now }
    ensures low { IsSum result.lowest }
    ensures high { IsSum result.highest }
{
    let mut lowest = 0;
    let mut highest = 0;
    for term in terms {
        lowest += i128::from(least_of(store, *term));
        highest += i128::from(greatest_of(store, *term));
    }
    Ends { lowest, highest }
}

/// Keeps terms near their ends: at most so far above the least number, and so far below the greatest.
pub fn keep_near(store: &mut Store, terms: &[Term], slack: Slack) -> Result<Change, AllocError>
    requires terms { AllByRecursion (IsTermOf (length store.old.doms)) terms.now }
    requires above { pos 0 ≤ℤ slack.above }
    requires below { pos 0 ≤ℤ slack.below }
    ensures shrinks { Shrinks store.old store.new }
    ensures correct { IsCorrectOf (AllNear slack terms.now store.old.doms)
        store.old.doms store.new.doms }
    ensures outcome { IfOk result
        (λ r. IsOutcome r (AllNear slack terms.now store.old.doms) store.old store.new) }
{
    let _ = store.doms();
    let mut has_changed = false;
    for term in terms {
        let _ = store.doms();
        match keep_one_near(store, *term, slack)? {
            Change::Wiped => return Ok(Change::Wiped),
            Change::Changed => has_changed = true,
            Change::Same => {}
        }
    }
    if has_changed {
        Ok(Change::Changed)
    } else {
        Ok(Change::Same)
    }
}

/// Keeps a term near its ends.
fn keep_one_near(store: &mut Store, term: Term, slack: Slack) -> Result<Change, AllocError>
    requires term { IsTermOf (length store.old.doms) term }
    requires above { pos 0 ≤ℤ slack.above }
    requires below { pos 0 ≤ℤ slack.below }
    ensures shrinks { Shrinks store.old store.new }
    ensures err { OnErr result (store.new ≡ store.old) }
    ensures change { IfOk result (λ r.
        IsTermChange r term (IsNearEnds slack (term_set store.old.doms term))
        store.old store.new) }
{
    let least = least_of(store, term);
    let greatest = greatest_of(store, term);
    let low = lowered(greatest, slack.below, least);
    let high = raised(least, slack.above, greatest);
    if low <= least && greatest <= high {
        return Ok(Change::Same);
    }
    keep_range(store, term, low, high)
}

/// A number that lies so far below another, or a floor above that.
fn lowered(number: i32, by: i128, floor: i32) -> i32
    requires floor { floor ≤ℤ number }
    requires by { pos 0 ≤ℤ by }
    ensures { (x : ℤ) → floor ≤ℤ x → (result ≤ℤ x) ↔ ((number -ℤ by) ≤ℤ x) }
{
    if i128::from(number) - i128::from(floor) <= by {
        return floor;
    }
    (i128::from(number) - by) as i32
}

/// A number that lies so far above another, or a ceiling below that.
fn raised(number: i32, by: i128, ceiling: i32) -> i32
    requires ceiling { number ≤ℤ ceiling }
    requires by { pos 0 ≤ℤ by }
    ensures { (x : ℤ) → x ≤ℤ ceiling → (x ≤ℤ result) ↔ (x ≤ℤ (number +ℤ by)) }
{
    if i128::from(ceiling) - i128::from(number) <= by {
        return ceiling;
    }
    (i128::from(number) + by) as i32
}

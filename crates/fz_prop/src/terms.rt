//! Terms over a store: a variable has its domain, a number itself alone.
ghost use Rattle.std.specs.Prelude.{◌≡◌, ◌≢◌, ◌↔◌, ◌<◌, ℤ, pos, ◌+ℤ◌, ◌≤ℤ◌, ◌<ℤ◌, List, length, IfOk, OnErr, IsTrue, IsNone, IfSome, MatchOption};
ghost use Rattle.std.specs.List.{AllByRecursion};
ghost use Rattle.fz_bits.specs.Windows.{IsBit};
ghost use Rattle.fz_bits.specs.Words.{AreOnes};
ghost use Rattle.fz_sets.specs.Sets.{IsInSet, IsWithinLimits, LEAST, GREATEST};
ghost use Rattle.fz_dom.specs.Changes.{IsFromTo};
ghost use Rattle.fz_dom.specs.Shape.{least, greatest};
ghost use Rattle.fz_strength.specs.Domains.{term_set, IsTermOf};
ghost use Rattle.fz_strength.specs.Events.{IsOnly, AllFixed};
ghost use Rattle.fz_prop.specs.Stores.{Shrinks, FitsTerm, IsTermChange};

use crate::store::Store;
use fz_bits::Window;
use fz_bits::word::run_of;
use fz_dom::{Change, Dom, single};
use fz_spec::term::Term;
use std::alloc::AllocError;

/// The least number of a term.
pub fn least_of(store: &Store, term: Term) -> i32
    requires { IsTermOf (length store.now.doms) term }
    ensures least { result ≡ least (term_set store.now.doms term) }
    ensures member { IsInSet (term_set store.now.doms term) result }
    ensures limits { FitsTerm term → IsWithinLimits result }
    ensures lower_bound { (x : ℤ) → IsInSet (term_set store.now.doms term) x → result ≤ℤ x }
{
    match term {
        Term::Var(variable) => store.dom(variable).min(),
        Term::Num(number) => number,
    }
}

/// The greatest number of a term.
pub fn greatest_of(store: &Store, term: Term) -> i32
    requires { IsTermOf (length store.now.doms) term }
    ensures greatest { result ≡ greatest (term_set store.now.doms term) }
    ensures member { IsInSet (term_set store.now.doms term) result }
    ensures limits { FitsTerm term → IsWithinLimits result }
    ensures upper_bound { (x : ℤ) → IsInSet (term_set store.now.doms term) x → x ≤ℤ result }
{
    match term {
        Term::Var(variable) => store.dom(variable).max(),
        Term::Num(number) => number,
    }
}

/// The number that alone is left of a term, if it is one.
pub fn value_of(store: &Store, term: Term) -> Option<i32>
    requires { IsTermOf (length store.now.doms) term }
    ensures { MatchOption result ((x : ℤ) → IsOnly (term_set store.now.doms term) x → ⊥)
        (λ x. IsOnly (term_set store.now.doms term) x) }
{
    match term {
        Term::Var(variable) => {
            let dom = store.dom(variable);
            if dom.is_fixed() {
                Some(dom.min())
            } else {
                None
            }
        }
        Term::Num(number) => Some(number),
    }
}

/// Whether a number is left of a term.
pub fn has(store: &Store, term: Term, number: i32) -> bool
    requires { IsTermOf (length store.now.doms) term }
    ensures { IsTrue result ↔ IsInSet (term_set store.now.doms term) number }
{
    match term {
        Term::Var(variable) => store.dom(variable).contains(number),
        Term::Num(only) => number == only,
    }
}

/// What is left of a term as a window; `None` exactly where it is more than 64 wide.
pub fn window_of(store: &Store, term: Term) -> Option<Window>
    requires term { IsTermOf (length store.now.doms) term }
    requires fits { FitsTerm term }
    ensures none { IsNone result ↔ ((least (term_set store.now.doms term) +ℤ pos 63)
        <ℤ greatest (term_set store.now.doms term)) }
    ensures floor { IfSome result (λ w. LEAST ≤ℤ w.base) }
    ensures ceiling { IfSome result (λ w. (w.base +ℤ pos 63) ≤ℤ GREATEST) }
    ensures numbers { IfSome result (λ w. (x : ℤ) → IsBit w.base w.bits x
        ↔ IsInSet (term_set store.now.doms term) x) }
{
    match term {
        Term::Var(variable) => store.dom(variable).window(0),
        Term::Num(number) => Some(single(number)),
    }
}

/// The bits of what is left of a term, where bit 0 stands for a base.
pub fn word_of(store: &Store, term: Term, base: i32) -> u64
    requires { IsTermOf (length store.now.doms) term }
    ensures { AreOnes result (λ j. IsInSet (term_set store.now.doms term) (base +ℤ pos j)) }
{
    match term {
        Term::Var(variable) => store.dom(variable).word_at(i64::from(base)),
        Term::Num(number) => run_between(number, number, base),
    }
}

/// The bits of the numbers from a low to a high, both among them, where bit 0 stands for a base.
fn run_between(low: i32, high: i32, base: i32) -> u64
    ensures { AreOnes result (λ j. (low ≤ℤ (base +ℤ pos j)) × ((base +ℤ pos j) ≤ℤ high)) }
{
    let first = i64::from(low) - i64::from(base);
    let last = i64::from(high) - i64::from(base);
    if last < 0 || 63 < first {
        return 0;
    }
    run_of(place_of(first), place_of(last))
}

/// The place of a bit that is nearest to a number.
fn place_of(number: i64) -> u32
    ensures below { result < 64 }
    ensures at { pos 0 ≤ℤ number → number ≤ℤ pos 63 → pos result ≡ number }
    ensures low { number ≤ℤ pos 0 → result ≡ 0 }
    ensures high { pos 63 ≤ℤ number → result ≡ 63 }
{
    number.clamp(0, 63) as u32
}

/// Whether one number is left of each of these terms.
pub fn are_fixed(store: &Store, terms: &[Term]) -> bool
    requires { AllByRecursion (IsTermOf (length store.now.doms)) terms.now }
    ensures { IsTrue result ↔ AllFixed store.now.doms terms.now }
{
    for term in terms {
        if value_of(store, *term).is_none() {
            return false;
        }
    }
    true
}

/// Keeps the numbers of a term at or above a value.
///
/// # Errors
/// `AllocError` where there is no memory; the store is then left as it was. So it is at each change.
pub fn keep_from(store: &mut Store, term: Term, value: i32) -> Result<Change, AllocError>
    requires { IsTermOf (length store.old.doms) term }
    ensures shrinks { Shrinks store.old store.new }
    ensures err { OnErr result (store.new ≡ store.old) }
    ensures change { IfOk result
        (λ r. IsTermChange r term (λ x. value ≤ℤ x) store.old store.new) }
{
    match term {
        Term::Var(variable) => store.keep_from(variable, value),
        Term::Num(number) if value <= number => Ok(Change::Same),
        Term::Num(_) => Ok(Change::Wiped),
    }
}

/// Keeps the numbers of a term at or below a value.
pub fn keep_to(store: &mut Store, term: Term, value: i32) -> Result<Change, AllocError>
    requires { IsTermOf (length store.old.doms) term }
    ensures shrinks { Shrinks store.old store.new }
    ensures err { OnErr result (store.new ≡ store.old) }
    ensures change { IfOk result
        (λ r. IsTermChange r term (λ x. x ≤ℤ value) store.old store.new) }
{
    match term {
        Term::Var(variable) => store.keep_to(variable, value),
        Term::Num(number) if number <= value => Ok(Change::Same),
        Term::Num(_) => Ok(Change::Wiped),
    }
}

/// Keeps the numbers of a term from a low to a high, both among them.
pub fn keep_range(store: &mut Store, term: Term, low: i32, high: i32) -> Result<Change, AllocError>
    requires { IsTermOf (length store.old.doms) term }
    ensures shrinks { Shrinks store.old store.new }
    ensures err { OnErr result (store.new ≡ store.old) }
    ensures change { IfOk result
        (λ r. IsTermChange r term (λ x. IsFromTo low high x) store.old store.new) }
{
    match term {
        Term::Var(variable) => store.keep_range(variable, low, high),
        Term::Num(number) if low <= number && number <= high => Ok(Change::Same),
        Term::Num(_) => Ok(Change::Wiped),
    }
}

/// Keeps one number of a term.
pub fn keep_only(store: &mut Store, term: Term, value: i32) -> Result<Change, AllocError>
    requires { IsTermOf (length store.old.doms) term }
    ensures shrinks { Shrinks store.old store.new }
    ensures err { OnErr result (store.new ≡ store.old) }
    ensures change { IfOk result (λ r. IsTermChange r term (λ x. x ≡ value) store.old store.new) }
{
    match term {
        Term::Var(variable) => store.keep_only(variable, value),
        Term::Num(number) if number == value => Ok(Change::Same),
        Term::Num(_) => Ok(Change::Wiped),
    }
}

/// Removes a number of a term.
pub fn remove(store: &mut Store, term: Term, value: i32) -> Result<Change, AllocError>
    requires { IsTermOf (length store.old.doms) term }
    ensures shrinks { Shrinks store.old store.new }
    ensures err { OnErr result (store.new ≡ store.old) }
    ensures change { IfOk result (λ r. IsTermChange r term (λ x. x ≢ value) store.old store.new) }
{
    match term {
        Term::Var(variable) => store.remove(variable, value),
        Term::Num(number) if number != value => Ok(Change::Same),
        Term::Num(_) => Ok(Change::Wiped),
    }
}

/// Keeps the numbers of a term that are in a set.
pub fn keep_in(store: &mut Store, term: Term, set: &Dom) -> Result<Change, AllocError>
    requires { IsTermOf (length store.old.doms) term }
    ensures shrinks { Shrinks store.old store.new }
    ensures err { OnErr result (store.new ≡ store.old) }
    ensures change { IfOk result
        (λ r. IsTermChange r term (λ x. IsInSet set.now x) store.old store.new) }
{
    match term {
        Term::Var(variable) => store.keep(variable, set),
        Term::Num(number) if set.contains(number) => Ok(Change::Same),
        Term::Num(_) => Ok(Change::Wiped),
    }
}

/// Keeps the numbers of a term that are those of a window.
pub fn keep_window(store: &mut Store, term: Term, window: Window) -> Result<Change, AllocError>
    requires term { IsTermOf (length store.old.doms) term }
    requires floor { LEAST ≤ℤ window.base }
    requires ceiling { (window.base +ℤ pos 63) ≤ℤ GREATEST }
    ensures shrinks { Shrinks store.old store.new }
    ensures err { OnErr result (store.new ≡ store.old) }
    ensures change { IfOk result
        (λ r. IsTermChange r term (λ x. IsBit window.base window.bits x) store.old store.new) }
{
    match term {
        Term::Var(variable) => store.keep_window(variable, window),
        Term::Num(number) if window.has(number) => Ok(Change::Same),
        Term::Num(_) => Ok(Change::Wiped),
    }
}

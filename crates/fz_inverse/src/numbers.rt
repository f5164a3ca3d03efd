//! The numbers of a term that can point back.
ghost use Rattle.std.specs.Prelude.{◌≡◌, ◌↔◌, ◌+◌, ◌≤◌, ◌<ℤ◌, ℤ, pos, length, IfOk, IsTrue, MatchOption};
ghost use Rattle.std.specs.List.{AllByRecursion};
ghost use Rattle.fz_bits.specs.Windows.{IsBit};
ghost use Rattle.fz_sets.specs.Sets.{IsInSet, GREATEST};
ghost use Rattle.fz_strength.specs.Domains.{IsTermOf, term_set};
ghost use Rattle.fz_prop.specs.Stores.{FitsTerm};
ghost use Rattle.fz_inverse.specs.Pointing.{CanPointBack, IsLeft};

use fz_bits::word::{has_bit, with_bit};
use fz_dom::Dom;
use fz_prop::Store;
use fz_prop::terms::{has, word_of};
use fz_spec::term::Term;
use std::alloc::{AllocError, Global};

/// The last number within the limits.
const LAST: usize = 2_147_483_646;

/// The numbers of the term at a place that can point back, of at most 64 others: bit 0 stands for 1.
pub fn bits_left(store: &Store, term: Term, others: &[Term], place: usize) -> u64
    requires term { IsTermOf (length store.now.doms) term }
    requires others { AllByRecursion (IsTermOf (length store.now.doms)) others.now }
    requires fits { AllByRecursion FitsTerm others.now }
    requires few { length others.now ≤ 64 }
    ensures { (x : ℤ) → IsInSet (term_set store.now.doms term) x
        → IsBit (pos 1) result x ↔ CanPointBack others.now store.now.doms place x }
{
    let left = word_of(store, term, 1);
    let mut kept = 0;
    for (index, other) in others.iter().enumerate() {
        let bit = index as u32;
        if !has_bit(left, bit) {
            continue;
        }
        if !has_place(store, *other, place) {
            continue;
        }
        kept = with_bit(kept, bit);
    }
    kept
}

/// The numbers of the term at a place that can point back, however many others there are.
///
/// # Errors
/// `AllocError` where there is no memory.
pub fn numbers_left(
    alloc: Global,
    store: &Store,
    term: Term,
    others: &[Term],
    place: usize,
) -> Result<Dom, AllocError>
    requires term { IsTermOf (length store.now.doms) term }
    requires others { AllByRecursion (IsTermOf (length store.now.doms)) others.now }
    requires fits_term { FitsTerm term }
    requires fits { AllByRecursion FitsTerm others.now }
    ensures { IfOk result (λ d. (x : ℤ) → IsInSet (term_set store.now.doms term) x
        → IsInSet d x ↔ CanPointBack others.now store.now.doms place x) }
{
    let mut ranges = Vec::new(alloc);
    for (index, other) in others.iter().enumerate() {
        let Some(number) = number_at(store, term, index) else {
            continue;
        };
        if !has_place(store, *other, place) {
            continue;
        }
        ranges.push((number, number))?;
    }
    Dom::from_ranges(alloc, &ranges)
}

/// Whether the number of a place is left of a term.
fn has_place(store: &Store, term: Term, place: usize) -> bool
    requires term { IsTermOf (length store.now.doms) term }
    requires fits { FitsTerm term }
    ensures { IsTrue result ↔ IsInSet (term_set store.now.doms term) (pos (place + 1)) }
{
    number_at(store, term, place).is_some()
}

/// The number of a place, if it is left of a term.
fn number_at(store: &Store, term: Term, place: usize) -> Option<i32>
    requires term { IsTermOf (length store.now.doms) term }
    requires fits { FitsTerm term }
    ensures { MatchOption result (IsInSet (term_set store.now.doms term) (pos (place + 1)) → ⊥)
        (λ n. IsLeft place n (term_set store.now.doms term)) }
{
    let _ = store.doms();
    match number_of(place) {
        None => None,
        Some(number) if has(store, term, number) => Some(number),
        Some(_) => None,
    }
}

/// The number of a place, counted from 1, if it is within the limits.
fn number_of(place: usize) -> Option<i32>
    ensures { MatchOption result (GREATEST <ℤ pos (place + 1)) (λ n. n ≡ pos (place + 1)) }
{
    if place < LAST {
        Some(place as i32 + 1)
    } else {
        None
    }
}

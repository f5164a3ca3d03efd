//! The indices whose number is left, one by one.
ghost use Rattle.std.specs.Prelude.{◌≡◌, ◌↔◌, ℕ, ℤ, pos, ◌+ℤ◌, ◌≤ℤ◌, ◌<ℤ◌, length, [], Some, IsTrue, IfOk, IfSome, OnOk};
ghost use Rattle.std.specs.Int.{int_max};
ghost use Rattle.std.specs.List.{slice_get};
ghost use Rattle.fz_sets.specs.Sets.{IsInSet};
ghost use Rattle.fz_strength.specs.Domains.{term_set, IsTermOf};
ghost use Rattle.fz_prop.specs.Stores.{FitsTerm};
ghost use Rattle.fz_element.specs.Selecting.{ArePairs, ArePairsBelow, AreAllPairs, Has, AreWithin, IsSeen, AreSeen};

use crate::numbers::{Numbers, Pairs, number_at};
use fz_bits::Window;
use fz_dom::Dom;
use fz_prop::Store;
use fz_prop::indices::{first_index, index_end};
use fz_prop::terms::{has, least_of, word_of};
use fz_spec::term::Term;
use std::alloc::{AllocError, Global};

/// Indices, and the numbers at them, as ranges of one number each.
#[derive(Drop)]
struct Found {
    places: Vec<(i32, i32)>,
    numbers: Vec<(i32, i32)>,
}

/// The indices that are left and whose number is left, and these numbers.
pub fn far_pairs(
    alloc: Global,
    store: &Store,
    index: Term,
    numbers: &[i32],
    value: Term,
) -> Result<Pairs, AllocError>
    requires index { IsTermOf (length store.now.doms) index }
    requires value { IsTermOf (length store.now.doms) value }
    requires fits_index { FitsTerm index }
    requires fits_value { FitsTerm value }
    ensures pairs { IfOk result (λ p. ArePairs numbers.now
        (λ k. IsInSet (term_set store.now.doms index) k)
        (λ n. IsInSet (term_set store.now.doms value) n)
        (λ k. Has p.indices k) (λ n. Has p.values n)) }
    ensures indices { IfOk result (λ p. AreWithin p.indices) }
    ensures values { IfOk result (λ p. AreWithin p.values) }
{
    let room = numbers.len().min(64);
    let mut found = Found {
        places: Vec::with_capacity(alloc, room)?,
        numbers: Vec::with_capacity(alloc, room)?,
    };
    add_pairs(store, index, numbers, value, &mut found)?;
    let indices = Dom::from_ranges(alloc, &found.places)?;
    let values = Dom::from_ranges(alloc, &found.numbers)?;
    Ok(Pairs {
        indices: Numbers::Far(indices),
        values: Numbers::Far(values),
    })
}

/// Adds the indices that are left and whose number is left, and these numbers, to none: range by range of the index.
fn add_pairs(
    store: &Store,
    index: Term,
    numbers: &[i32],
    value: Term,
    found: &mut Found,
) -> Result<(), AllocError>
    requires index { IsTermOf (length store.now.doms) index }
    requires value { IsTermOf (length store.now.doms) value }
    requires fits_index { FitsTerm index }
    requires fits_value { FitsTerm value }
    requires none { (found.old.places.items ≡ []) × (found.old.numbers.items ≡ []) }
    ensures { OnOk result (AreAllPairs numbers.now
        (λ k. IsInSet (term_set store.now.doms index) k)
        (λ n. IsInSet (term_set store.now.doms value) n)
        found.new.places.items found.new.numbers.items) }
{
    let _ = store.doms();
    let (first, end) = (
        first_index(store, index),
        index_end(store, index, numbers.len()),
    );
    let values = windows_of(store, value);
    let Term::Var(variable) = index else {
        return add_range(store, index, numbers, value, &values, first, end, found);
    };
    let left = store.dom(variable);
    let mut reached = first;
    for i in 0..left.range_count() {
        let (low, high) = left.range_at(i);
        let (from, until) = (low.max(reached), end.min(high + 1));
        if from < until {
            add_range(store, index, numbers, value, &values, from, until, found)?;
            reached = until;
        }
    }
    Ok(())
}

/// Adds the indices of a range, which are all left, whose number is left, and these numbers.
fn add_range(
    store: &Store,
    index: Term,
    numbers: &[i32],
    value: Term,
    values: &[Window],
    from: i32,
    until: i32,
    found: &mut Found,
) -> Result<(), AllocError>
    requires index { IsTermOf (length store.now.doms) index }
    requires value { IsTermOf (length store.now.doms) value }
    requires fits_index { FitsTerm index }
    requires fits_value { FitsTerm value }
    requires values { AreSeen (λ m. IsInSet (term_set store.now.doms value) m) values.now }
    requires left { (k : ℤ) → from ≤ℤ k → k <ℤ until
        → IsInSet (term_set store.now.doms index) k }
    requires begun { ArePairsBelow numbers.now
        (λ k. IsInSet (term_set store.now.doms index) k)
        (λ n. IsInSet (term_set store.now.doms value) n)
        found.old.places.items found.old.numbers.items from }
    ensures { OnOk result (ArePairsBelow numbers.now
        (λ k. IsInSet (term_set store.now.doms index) k)
        (λ n. IsInSet (term_set store.now.doms value) n)
        found.new.places.items found.new.numbers.items (int_max from until)) }
{
    let _ = store.doms();
    let _ = index;
    for place in from..until {
        let Some(number) = number_at(numbers, place) else {
            continue;
        };
        if is_left(store, value, values, number) {
            found.places.push((place, place))?;
            found.numbers.push((number, number))?;
        }
    }
    Ok(())
}

/// Whether a number is left of a term, of whose numbers windows have some.
fn is_left(store: &Store, term: Term, windows: &[Window], number: i32) -> bool
    requires term { IsTermOf (length store.now.doms) term }
    requires windows { AreSeen (λ x. IsInSet (term_set store.now.doms term) x) windows.now }
    ensures { IsTrue result ↔ IsInSet (term_set store.now.doms term) number }
{
    match window_near(windows, number) {
        Some(window) => window.has(number),
        None => has(store, term, number),
    }
}

/// The window of one number, if it is one of these.
fn window_near(windows: &[Window], number: i32) -> Option<Window>
    ensures { IfSome result (λ w. ((i : ℕ) × (slice_get windows.now i ≡ Some w))
        × (w.base ≤ℤ number) × (number ≤ℤ (w.base +ℤ pos 63))) }
{
    let first = windows.first()?.base;
    let place = number.abs_diff(first) / 64;
    let window = *windows.get(place as usize)?;
    if window.base <= number && number.abs_diff(window.base) < 64 {
        Some(window)
    } else {
        None
    }
}

/// The windows of 256 numbers from the least one of a term on.
fn windows_of(store: &Store, term: Term) -> [Window; 4]
    requires { IsTermOf (length store.now.doms) term }
    ensures { AreSeen (λ x. IsInSet (term_set store.now.doms term) x) result }
{
    let first = least_of(store, term);
    let second = first.saturating_add(64);
    let third = second.saturating_add(64);
    let fourth = third.saturating_add(64);
    [
        window_from(store, term, first),
        window_from(store, term, second),
        window_from(store, term, third),
        window_from(store, term, fourth),
    ]
}

/// The window of the numbers that are left of a term from a base on.
fn window_from(store: &Store, term: Term, base: i32) -> Window
    requires { IsTermOf (length store.now.doms) term }
    ensures { IsSeen (λ x. IsInSet (term_set store.now.doms term) x) result }
{
    let bits = word_of(store, term, base);
    Window { base, bits }
}

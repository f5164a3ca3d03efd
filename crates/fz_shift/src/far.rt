//! Keeping the numbers of three variables that lie on a plane, where the second is more than 64 wide.
ghost use Rattle.std.specs.Prelude.{◌≡◌, ◌↔◌, ◌<◌, ◌≤ℤ◌, ◌+ℤ◌, ◌^◌, neg_ℤ, pos, List, ℕ, ℤ, length, IfOk, IsTrue};
ghost use Rattle.fz_sets.specs.Sets.{IsInSet, IsWithinLimits};
ghost use Rattle.fz_bits.specs.Windows.{IsBit};
ghost use Rattle.fz_bits.specs.Words.{HasBit};
ghost use Rattle.fz_dom.specs.Changes.{IsFromTo};
ghost use Rattle.fz_strength.specs.Domains.{Within, dom_at, number_at};
ghost use Rattle.fz_prop.specs.Answers.{IsCorrectOf};
ghost use Rattle.fz_prop.specs.Matching.{HasRoom};
ghost use Rattle.fz_prop.specs.Stores.{Shrinks};
ghost use Rattle.fz_shift.specs.Planes.{AreApart, AreInside, IsSmall, PlaneTruth};
ghost use Rattle.fz_shift.specs.Points.{AreOfPoints, IsMade, IsSpared, KeepsAt};

use crate::keeping::keep_two;
use crate::matching::{OnDomain, seconds_of};
use crate::plane::Plane;
use fz_bits::Window;
use fz_bits::word::{bits_above, first_run, without};
use fz_prop::matching::related;
use fz_prop::{Change, Store};
use std::alloc::AllocError;

/// Narrows a store so that three variables lie on a plane, and says whether something is left; windows have what was left of the one
/// across and of the first.
pub fn keep_far(
    store: &mut Store,
    plane: Plane,
    across: Window,
    first: Window,
) -> Result<bool, AllocError>
    requires inside { AreInside (length store.old.doms) plane }
    requires small { IsSmall plane }
    requires apart { AreApart plane }
    requires across_room { HasRoom across.base }
    requires first_room { HasRoom first.base }
    requires across { (u : ℤ) → IsBit across.base across.bits u
        ↔ IsInSet (dom_at store.old.doms plane.across) u }
    requires first { (w : ℤ) → IsBit first.base first.bits w
        ↔ IsInSet (dom_at store.old.doms plane.first) w }
    ensures shrinks { Shrinks store.old store.new }
    ensures correct { IsCorrectOf (PlaneTruth plane) store.old.doms store.new.doms }
    ensures points { IfOk result (λ b. IsTrue b
        → AreOfPoints plane store.old.doms store.new.doms) }
    ensures some { IfOk result (λ b. (a : List ℤ) → PlaneTruth plane a
        → Within store.old.doms a → IsTrue b) }
{
    let second = store.dom(plane.second);
    let found = related(across, first, &OnDomain { plane, second });
    if !keep_seconds(store, plane, found.firsts, found.seconds)? {
        return Ok(false);
    }
    keep_two(store, plane, found.firsts, found.seconds)
}

/// Keeps the numbers of the second variable that numbers across and of the first one make, and says whether there are some.
fn keep_seconds(
    store: &mut Store,
    plane: Plane,
    across: Window,
    first: Window,
) -> Result<bool, AllocError>
    requires inside { AreInside (length store.old.doms) plane }
    requires small { IsSmall plane }
    requires across_room { HasRoom across.base }
    ensures shrinks { Shrinks store.old store.new }
    ensures stays { (a : List ℤ) → Within store.old.doms a
        → IsMade plane (λ u. IsBit across.base across.bits u)
        (λ w. IsBit first.base first.bits w) (number_at a plane.second)
        → Within store.new.doms a }
    ensures kept { IfOk result (λ b. IsTrue b → KeepsAt plane.second
        (IsMade plane (λ u. IsBit across.base across.bits u)
        (λ w. IsBit first.base first.bits w)) store.old.doms store.new.doms) }
    ensures some { IfOk result (λ b. (a : List ℤ) → Within store.old.doms a
        → IsMade plane (λ u. IsBit across.base across.bits u)
        (λ w. IsBit first.base first.bits w) (number_at a plane.second)
        → IsTrue b) }
{
    if across.bits == 0 {
        return Ok(false);
    }
    let mut base = i64::from(store.dom(plane.second).min());
    let high = i64::from(store.dom(plane.second).max());
    'words: while base <= high {
        let made = seconds_of(plane, across, first, base as i32);
        if !keep_made(store, plane.second, base, made)? {
            return Ok(false);
        }
        base += 64;
    }
    Ok(true)
}

/// Keeps of the 64 numbers from a base on those of a word, and says whether something is left.
fn keep_made(store: &mut Store, variable: u32, base: i64, made: u64) -> Result<bool, AllocError>
    requires variable { variable < length store.old.doms }
    requires floor { neg_ℤ (pos (2 ^ 40)) ≤ℤ base }
    requires ceiling { base ≤ℤ pos (2 ^ 40) }
    ensures shrinks { Shrinks store.old store.new }
    ensures stays { (a : List ℤ) → Within store.old.doms a
        → IsSpared base made (number_at a variable) → Within store.new.doms a }
    ensures kept { IfOk result (λ b. IsTrue b
        → KeepsAt variable (IsSpared base made) store.old.doms store.new.doms) }
    ensures some { IfOk result (λ b. (a : List ℤ) → Within store.old.doms a
        → IsSpared base made (number_at a variable) → IsTrue b) }
{
    let lost = without(store.dom(variable).word_at(base), made);
    exclude(store, variable, base, lost)
}

/// Removes the numbers of a word from a variable, and says whether something is left.
fn exclude(store: &mut Store, variable: u32, base: i64, word: u64) -> Result<bool, AllocError>
    requires variable { variable < length store.old.doms }
    requires near { (i : ℕ) → i < 64 → HasBit word i → IsWithinLimits (base +ℤ pos i) }
    ensures shrinks { Shrinks store.old store.new }
    ensures stays { (a : List ℤ) → Within store.old.doms a
        → (IsBit base word (number_at a variable) → ⊥) → Within store.new.doms a }
    ensures kept { IfOk result (λ b. IsTrue b
        → KeepsAt variable (λ x. IsBit base word x → ⊥) store.old.doms store.new.doms) }
    ensures some { IfOk result (λ b. (a : List ℤ) → Within store.old.doms a
        → (IsBit base word (number_at a variable) → ⊥) → IsTrue b) }
{
    let mut left = word;
    'runs: while left != 0 {
        let (first, last) = first_run(left);
        left = bits_above(left, last);
        let (low, high) = (number_of(base, first), number_of(base, last));
        if !remove_between(store, variable, low, high)? {
            return Ok(false);
        }
    }
    Ok(true)
}

/// The number that a bit stands for.
fn number_of(base: i64, place: u32) -> i32
    requires small { place < 64 }
    requires near { IsWithinLimits (base +ℤ pos place) }
    ensures { result ≡ base +ℤ pos place }
{
    (base + i64::from(place)) as i32
}

/// Removes numbers from a low to a high of a variable, and says whether there are others.
fn remove_between(store: &mut Store, variable: u32, low: i32, high: i32) -> Result<bool, AllocError>
    requires variable { variable < length store.old.doms }
    ensures shrinks { Shrinks store.old store.new }
    ensures stays { (a : List ℤ) → Within store.old.doms a
        → (IsFromTo low high (number_at a variable) → ⊥) → Within store.new.doms a }
    ensures kept { IfOk result (λ b. IsTrue b
        → KeepsAt variable (λ x. IsFromTo low high x → ⊥) store.old.doms store.new.doms) }
    ensures some { IfOk result (λ b. (a : List ℤ) → Within store.old.doms a
        → (IsFromTo low high (number_at a variable) → ⊥) → IsTrue b) }
{
    match store.remove_range(variable, low, high)? {
        Change::Same | Change::Changed => Ok(true),
        Change::Wiped => Ok(false),
    }
}

//! Keeping the numbers of three variables that lie on a plane.
ghost use Rattle.std.specs.Prelude.{◌≡◌, ◌↔◌, ◌<◌, ◌≤ℤ◌, ◌+ℤ◌, pos, List, ℤ, length, IfOk, IsTrue};
ghost use Rattle.fz_sets.specs.Sets.{IsInSet, LEAST, GREATEST};
ghost use Rattle.fz_bits.specs.Windows.{IsBit};
ghost use Rattle.fz_strength.specs.Domains.{Within, dom_at, number_at};
ghost use Rattle.fz_prop.specs.Answers.{IsCorrectOf};
ghost use Rattle.fz_prop.specs.Matching.{HasRoom};
ghost use Rattle.fz_prop.specs.Stores.{Shrinks};
ghost use Rattle.fz_shift.specs.Planes.{AreApart, AreInside, IsSmall, PlaneTruth};
ghost use Rattle.fz_shift.specs.Points.{AreOfPoints, KeepsAt, KeepsTwo};

use crate::matching::OnWindow;
use crate::plane::Plane;
use fz_bits::Window;
use fz_prop::matching::related;
use fz_prop::{Change, Store};
use std::alloc::AllocError;

/// Narrows a store so that three variables lie on a plane, and says whether something is left; windows have what was left of them.
pub fn keep_near(
    store: &mut Store,
    plane: Plane,
    across: Window,
    first: Window,
    second: Window,
) -> Result<bool, AllocError>
    requires inside { AreInside (length store.old.doms) plane }
    requires small { IsSmall plane }
    requires apart { AreApart plane }
    requires across_room { HasRoom across.base }
    requires first_room { HasRoom first.base }
    requires second_room { HasRoom second.base }
    requires across { (u : ℤ) → IsBit across.base across.bits u
        ↔ IsInSet (dom_at store.old.doms plane.across) u }
    requires first { (w : ℤ) → IsBit first.base first.bits w
        ↔ IsInSet (dom_at store.old.doms plane.first) w }
    requires second { (v : ℤ) → IsBit second.base second.bits v
        ↔ IsInSet (dom_at store.old.doms plane.second) v }
    ensures shrinks { Shrinks store.old store.new }
    ensures correct { IsCorrectOf (PlaneTruth plane) store.old.doms store.new.doms }
    ensures points { IfOk result (λ b. IsTrue b
        → AreOfPoints plane store.old.doms store.new.doms) }
    ensures some { IfOk result (λ b. (a : List ℤ) → PlaneTruth plane a
        → Within store.old.doms a → IsTrue b) }
{
    let found = related(across, first, &OnWindow { plane, second });
    let made = OnWindow {
        plane: plane.turned(),
        second: found.seconds,
    };
    let thirds = related(found.firsts, second, &made);
    if !keep_some(store, plane.second, thirds.seconds)? {
        return Ok(false);
    }
    keep_two(store, plane, found.firsts, found.seconds)
}

/// Keeps numbers across and of the first variable, and says whether there are some.
pub fn keep_two(
    store: &mut Store,
    plane: Plane,
    across: Window,
    first: Window,
) -> Result<bool, AllocError>
    requires inside { AreInside (length store.old.doms) plane }
    requires apart { AreApart plane }
    requires across_room { HasRoom across.base }
    requires first_room { HasRoom first.base }
    ensures shrinks { Shrinks store.old store.new }
    ensures stays { (a : List ℤ) → Within store.old.doms a
        → IsBit across.base across.bits (number_at a plane.across)
        → IsBit first.base first.bits (number_at a plane.first)
        → Within store.new.doms a }
    ensures two { IfOk result (λ b. IsTrue b
        → KeepsTwo plane (λ u. IsBit across.base across.bits u)
        (λ w. IsBit first.base first.bits w) store.old.doms store.new.doms) }
    ensures some { IfOk result (λ b. (a : List ℤ) → Within store.old.doms a
        → IsBit across.base across.bits (number_at a plane.across)
        → IsBit first.base first.bits (number_at a plane.first) → IsTrue b) }
{
    if !keep_some(store, plane.first, first)? {
        return Ok(false);
    }
    keep_some(store, plane.across, across)
}

/// Keeps the numbers of a variable that are those of a window, and says whether there are some.
fn keep_some(store: &mut Store, variable: u32, window: Window) -> Result<bool, AllocError>
    requires variable { variable < length store.old.doms }
    requires room { HasRoom window.base }
    ensures shrinks { Shrinks store.old store.new }
    ensures stays { (a : List ℤ) → Within store.old.doms a
        → IsBit window.base window.bits (number_at a variable) → Within store.new.doms a }
    ensures kept { IfOk result (λ b. IsTrue b
        → KeepsAt variable (λ x. IsBit window.base window.bits x) store.old.doms store.new.doms) }
    ensures some { IfOk result (λ b. (a : List ℤ) → Within store.old.doms a
        → IsBit window.base window.bits (number_at a variable) → IsTrue b) }
{
    match store.keep_window(variable, window)? {
        Change::Same | Change::Changed => Ok(true),
        Change::Wiped => Ok(false),
    }
}

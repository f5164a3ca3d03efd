//! Changes of one domain.
ghost use Rattle.std.specs.Prelude.{◌≡◌, ◌<◌, ◌-ℤ◌, ◌+ℤ◌, ◌≤ℤ◌, pos, List, length, IfOk, OnErr};
ghost use Rattle.fz_bits.specs.Windows.{IsBit};
ghost use Rattle.fz_sets.specs.Sets.{IsInSet, LEAST, GREATEST};
ghost use Rattle.fz_dom.specs.Changes.{IsChange};
ghost use Rattle.fz_dom.specs.Shape.{IsDomain, least, greatest};
ghost use Rattle.fz_prop.specs.Cuts.{Keeps, change_level};
ghost use Rattle.fz_prop.specs.Stores.{IsCut};

use fz_bits::Window;
use fz_dom::{Change, Dom};
use std::alloc::AllocError;

/// Which numbers of a domain are to stay.
#[derive(Clone, Copy)]
pub enum Cut {
    From(i32),
    To(i32),
    Only(i32),
    Range(i32, i32),
    Without(i32),
    WithoutRange(i32, i32),
}

#[inline(always)]
fn keep(dom: &mut Dom, cut: Cut) -> Result<Change, AllocError>
    ensures change { IfOk result (λ r. IsChange r (Keeps cut) dom.old dom.new) }
    ensures err { OnErr result (dom.new ≡ dom.old) }
    ensures domain { IsDomain dom.new }
{
    match cut {
        Cut::From(value) => Ok(dom.keep_from(value)),
        Cut::To(value) => Ok(dom.keep_to(value)),
        Cut::Only(value) => Ok(dom.keep_only(value)),
        Cut::Range(low, high) => Ok(dom.keep_range(low, high)),
        Cut::Without(value) => dom.remove(value),
        Cut::WithoutRange(low, high) => dom.remove_range(low, high),
    }
}

/// How much of a change it was from a domain with these ends.
#[inline(always)]
fn level_since(low: i32, high: i32, dom: &Dom) -> u8
    requires { 0 < length dom.now }
    ensures { result ≡ change_level low high dom.now }
{
    if dom.size() == 1 {
        return 3;
    }
    if low != dom.min() {
        return 2;
    }
    if high != dom.max() {
        return 2;
    }
    1
}

/// Cuts a domain: what became of it, and how much of a change it was, 0 where nothing left.
#[inline(always)]
pub fn cut_one(dom: &mut Dom, cut: Cut) -> Result<(Change, u8), AllocError>
    requires { 0 < length dom.old }
    ensures cut { IfOk result (λ r. IsCut r.0 r.1 (Keeps cut) dom.old dom.new) }
    ensures err { OnErr result (dom.new ≡ dom.old) }
    ensures domain { IsDomain dom.new }
    ensures old_domain { IsDomain dom.old }
{
    let (low, high) = (dom.min(), dom.max());
    match keep(dom, cut)? {
        Change::Changed => Ok((Change::Changed, level_since(low, high, dom))),
        change => Ok((change, 0)),
    }
}

/// Keeps the numbers of a domain that lie a shift above those of another: what became of it, and how much of a change it was,
/// 0 where nothing left.
pub fn cut_to(dom: &mut Dom, other: &Dom, shift: i32) -> Result<(Change, u8), AllocError>
    requires { 0 < length dom.old }
    ensures cut { IfOk result
        (λ r. IsCut r.0 r.1 (λ x. IsInSet other.now (x -ℤ shift)) dom.old dom.new) }
    ensures err { OnErr result (dom.new ≡ dom.old) }
    ensures domain { IsDomain dom.new }
    ensures old_domain { IsDomain dom.old }
{
    let (low, high) = (dom.min(), dom.max());
    match dom.keep_shifted(other, shift)? {
        Change::Changed => Ok((Change::Changed, level_since(low, high, dom))),
        change => Ok((change, 0)),
    }
}

/// Keeps the numbers of a domain that are those of a window: what became of it, and how much of a change it was, 0 where nothing
/// left.
#[inline(always)]
pub fn cut_window(dom: &mut Dom, window: Window) -> (Change, u8)
    requires some { 0 < length dom.old }
    requires floor { LEAST ≤ℤ window.base }
    requires ceiling { (window.base +ℤ pos 63) ≤ℤ GREATEST }
    ensures cut { IsCut result.0 result.1 (λ x. IsBit window.base window.bits x) dom.old dom.new }
    ensures domain { IsDomain dom.new }
    ensures old_domain { IsDomain dom.old }
{
    let (low, high) = (dom.min(), dom.max());
    match dom.keep_window(window) {
        Change::Changed => (Change::Changed, level_since(low, high, dom)),
        change => (change, 0),
    }
}

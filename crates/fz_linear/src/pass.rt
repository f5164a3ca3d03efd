//! Passes over the terms of a sum that narrow each by how far the sum's least is below a bound.
ghost use Rattle.std.specs.Prelude.{◌≡◌, ◌<◌, ◌≤◌, ◌↔◌, ℕ, ℤ, pos, List, length, IfOk, OnErr, IsTrue};
ghost use Rattle.fz_dom.specs.declared.change.Change.TheVariants.{Changed};
ghost use Rattle.fz_strength.specs.Domains.{AreDomains, IsTermOf};
ghost use Rattle.fz_strength.specs.Sums.{negated, AreNear};
ghost use Rattle.fz_prop.specs.Stores.{Shrinks};
ghost use Rattle.fz_linear.specs.Terms.{AreTermsOf};
ghost use Rattle.fz_linear.specs.Sides.{seen_from, all_seen_from};
ghost use Rattle.fz_linear.specs.Passes.{IsTightened, KeepsNear, IsPassed, KeepsBetween, ArePassed};

use crate::reach::{above_least, below_greatest, reach, width};
use crate::side::{Side, is_low};
use crate::sums::is_loose;
use fz_prop::terms::{keep_from, keep_to};
use fz_prop::{Change, Store};
use fz_spec::term::Term;
use std::alloc::AllocError;

fn is_changed(change: Change) -> bool
    ensures { IsTrue result ↔ (change ≡ Changed) }
{
    match change {
        Change::Changed => true,
        Change::Same | Change::Wiped => false,
    }
}

/// Narrows a term to the numbers that are with its factor at most the slack above the least.
#[inline(always)]
fn tighten(
    store: &mut Store,
    side: Side,
    factor: i32,
    term: Term,
    slack: u128,
) -> Result<Change, AllocError>
    requires { IsTermOf (length store.old.doms) term }
    ensures shrinks { Shrinks store.old store.new }
    ensures err { OnErr result (store.new ≡ store.old) }
    ensures ok { IfOk result
        (λ r. IsTightened r (seen_from side factor) term (pos slack) store.old store.new) }
{
    let Some(reach) = reach(factor.unsigned_abs(), width(store, term), slack) else {
        return Ok(Change::Same);
    };
    if is_low(side, factor) {
        let high = above_least(store, term, reach);
        return keep_to(store, term, high);
    }
    let low = below_greatest(store, term, reach);
    keep_from(store, term, low)
}

/// Narrows each term so, and says whether anything changed.
#[inline(always)]
pub fn tighten_all(
    store: &mut Store,
    side: Side,
    factors: &[i32],
    terms: &[Term],
    slack: u128,
) -> Result<bool, AllocError>
    requires same { length factors.now ≡ length terms.now }
    requires inside { AreTermsOf (length store.old.doms) terms.now }
    ensures domains { AreDomains store.old.doms }
    ensures shrinks { Shrinks store.old store.new }
    ensures kept { KeepsNear (all_seen_from side factors.now) terms.now (pos slack)
        store.old.doms store.new.doms }
    ensures ok { IfOk result (λ b.
        IsPassed b (all_seen_from side factors.now) terms.now (pos slack) store.old store.new) }
{
    let _ = store.doms();
    let mut changed = false;
    for i in 0..factors.len() {
        changed |= is_changed(tighten(store, side, factors[i], terms[i], slack)?);
    }
    Ok(changed)
}

/// Narrows each term from both sides, by the slack to each, and says whether anything changed. No term with its factor is wider than
/// is said, so that a slack that has room for this width narrows none.
pub fn tighten_between(
    store: &mut Store,
    factors: &[i32],
    terms: &[Term],
    widest: u64,
    above: u128,
    below: u128,
) -> Result<bool, AllocError>
    requires same { length factors.now ≡ length terms.now }
    requires inside { AreTermsOf (length store.old.doms) terms.now }
    requires loose { (slack : ℕ) → widest ≤ slack
        → AreNear store.old.doms (pos slack) factors.now terms.now }
    ensures shrinks { Shrinks store.old store.new }
    ensures kept { KeepsBetween factors.now terms.now (pos above) (pos below)
        store.old.doms store.new.doms }
    ensures ok { IfOk result
        (λ b. ArePassed b factors.now terms.now (pos above) (pos below) store.old store.new) }
{
    if is_loose(widest, above) {
        return tighten_all(store, Side::Below, factors, terms, below);
    }
    if is_loose(widest, below) {
        return tighten_all(store, Side::Above, factors, terms, above);
    }
    tighten_both(store, factors, terms, above, below)
}

/// Narrows each term so from above, and then from below.
fn tighten_both(
    store: &mut Store,
    factors: &[i32],
    terms: &[Term],
    above: u128,
    below: u128,
) -> Result<bool, AllocError>
    requires same { length factors.now ≡ length terms.now }
    requires inside { AreTermsOf (length store.old.doms) terms.now }
    ensures shrinks { Shrinks store.old store.new }
    ensures kept { KeepsBetween factors.now terms.now (pos above) (pos below)
        store.old.doms store.new.doms }
    ensures ok { IfOk result
        (λ b. ArePassed b factors.now terms.now (pos above) (pos below) store.old store.new) }
{
    let high = tighten_all(store, Side::Above, factors, terms, above)?;
    let low = tighten_all(store, Side::Below, factors, terms, below)?;
    Ok(high || low)
}

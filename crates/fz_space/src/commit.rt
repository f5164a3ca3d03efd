//! Taking a decision.
ghost use Rattle.std.specs.Prelude.{◌≡◌, pos, ◌+ℤ◌, ◌++◌, ◌∷◌, [], ◌<◌, ℕ, ℤ, ◌≤ℤ◌, ◌<ℤ◌, ◌≤◌, List, Option, IsTrue, length, true, false, IfOk, OnOk, OnErr};
ghost use Rattle.fz_spec.specs.Instance.{Instance};
ghost use Rattle.fz_tree.specs.declared.decision.Decision as tree;
ghost use Rattle.fz_tree.specs.Choice.{meets};
ghost use Rattle.fz_sets.specs.Sets.{IsInSet, IsWithinLimits};
ghost use Rattle.fz_strength.specs.Domains.{Within, dom_at};
ghost use Rattle.fz_strength.specs.Sayings.{Saying};
ghost use Rattle.fz_prop.specs.declared.kept.Kept.{Kept};
ghost use Rattle.fz_prop.specs.Told.{AreTold};
ghost use Rattle.fz_prop.specs.Stores.{IsStore, Shrinks, IsChangeAt};
ghost use Rattle.fz_engine.specs.Networks.{Networked};
ghost use Rattle.fz_engine.specs.Runs.{IsAlive};
ghost use Rattle.fz_search_space.specs.Spaces.{Covers};
ghost use Rattle.fz_space.specs.Alive.{spaced, FrontFixed, AreSettled, Compares, IsDecided};

use fz_prop::{Change, Store};
use fz_tree::decision::{Comparison, Decision};
use std::alloc::AllocError;

/// A store and whether it has failed become those of the assignments that meet a decision. What has failed stays so, and a
/// decision on a variable that isn't there fails.
///
/// # Errors
/// `AllocError` where there is no memory; all is left as it was.
pub fn take(store: &mut Store, failed: &mut bool, decision: Decision) -> Result<(), AllocError>
    ensures alive { (n : Networked) (states : List ℕ)
        → (failed.old ≡ false → IsAlive n states store.old)
        → failed.new ≡ false → IsAlive n states store.new }
    ensures told { (sayings : List Saying) (kept : List Kept)
        → AreTold sayings kept store.old.doms → AreTold sayings kept store.new.doms }
    ensures settled { (numbers : List ℤ)
        → AreSettled numbers store.old.doms → AreSettled numbers store.new.doms }
    ensures front { (n : ℕ) → (failed.old ≡ false → FrontFixed n store.old.doms)
        → failed.new ≡ false → FrontFixed n store.new.doms }
    ensures covers { OnOk result ((m : Instance) (known : Option (List ℤ)) (ds : List tree.Decision)
        → Covers known ds (spaced m store.old failed.old)
        → Covers known (ds ++ decision ∷ []) (spaced m store.new failed.new)) }
    ensures met { OnOk result (failed.new ≡ false
        → (a : List ℤ) → Within store.new.doms a → IsTrue (meets a decision)) }
    ensures narrower { OnOk result (failed.new ≡ false → (a : List ℤ)
        → Within store.new.doms a → (failed.old ≡ false) × Within store.old.doms a) }
    ensures stays { failed.old ≡ true → failed.new ≡ true }
    ensures lacking { OnOk result (length store.old.doms ≤ decision.variable → failed.new ≡ true) }
    ensures store_on_err { OnErr result (store.new ≡ store.old) }
    ensures failed_on_err { OnErr result (failed.new ≡ failed.old) }
{
    if *failed {
        return Ok(());
    }
    let left = decide(store, decision)?;
    *failed = !left;
    Ok(())
}

/// Keeps the assignments that meet a decision; false where there is none.
fn decide(store: &mut Store, decision: Decision) -> Result<bool, AllocError>
    ensures store { IsStore store.new }
    ensures shrinks { Shrinks store.old store.new }
    ensures decided { IfOk result (λ b. IsDecided b decision store.old.doms store.new.doms) }
    ensures lacking { length store.old.doms ≤ decision.variable → IfOk result (λ b. b ≡ false) }
    ensures err { OnErr result (store.new ≡ store.old) }
{
    if (decision.variable as usize) < store.doms().len() {
        decide_there(store, decision)
    } else {
        Ok(false)
    }
}

/// Keeps the assignments that meet a decision on a variable that is there; false where there is none.
fn decide_there(store: &mut Store, decision: Decision) -> Result<bool, AllocError>
    requires { decision.variable < length store.old.doms }
    ensures store { IsStore store.new }
    ensures shrinks { Shrinks store.old store.new }
    ensures decided { IfOk result (λ b. IsDecided b decision store.old.doms store.new.doms) }
    ensures err { OnErr result (store.new ≡ store.old) }
{
    let change = keep(store, decision);
    let _ = store.doms();
    match change? {
        Change::Wiped => Ok(false),
        Change::Same => Ok(true),
        Change::Changed => Ok(true),
    }
}

/// Keeps the numbers of a variable that compare as a decision says.
fn keep(store: &mut Store, decision: Decision) -> Result<Change, AllocError>
    requires { decision.variable < length store.old.doms }
    ensures shrinks { Shrinks store.old store.new }
    ensures err { OnErr result (store.new ≡ store.old) }
    ensures change { IfOk result (λ r. IsChangeAt r decision.variable
        (Compares decision.comparison decision.value) store.old store.new) }
{
    match decision.comparison {
        Comparison::Equal => store.keep_only(decision.variable, decision.value),
        Comparison::NotEqual => store.remove(decision.variable, decision.value),
        Comparison::AtMost => store.keep_to(decision.variable, decision.value),
        Comparison::Above => keep_above(store, decision.variable, decision.value),
    }
}

/// Keeps the numbers of a variable above a value.
fn keep_above(store: &mut Store, variable: u32, value: i32) -> Result<Change, AllocError>
    requires { variable < length store.old.doms }
    ensures shrinks { Shrinks store.old store.new }
    ensures err { OnErr result (store.new ≡ store.old) }
    ensures change { IfOk result
        (λ r. IsChangeAt r variable (λ x. value <ℤ x) store.old store.new) }
{
    let greatest = greatest_at(store, variable);
    if greatest <= value {
        return Ok(Change::Wiped);
    }
    let change = store.keep_from(variable, next(value, greatest))?;
    Ok(change)
}

/// The number after a value.
fn next(value: i32, greatest: i32) -> i32
    requires below { value <ℤ greatest }
    requires limits { IsWithinLimits greatest }
    ensures { result ≡ (value +ℤ pos 1) }
{
    value + 1
}

/// The greatest number of a variable.
fn greatest_at(store: &Store, variable: u32) -> i32
    requires { variable < length store.now.doms }
    ensures upper_bound { (x : ℤ) → IsInSet (dom_at store.now.doms variable) x → x ≤ℤ result }
    ensures limits { IsWithinLimits result }
{
    store.dom(variable).max()
}

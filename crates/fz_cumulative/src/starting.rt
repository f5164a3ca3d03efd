//! Keeping the starts of tasks to where they aren't blocked.
ghost use Rattle.std.specs.Prelude.{◌≡◌, ℤ, pos, ◌≤ℤ◌, List, length, IfOk, OnErr};
ghost use Rattle.std.specs.List.{AllByRecursion};
ghost use Rattle.fz_strength.specs.Cumulatives.{IsSound};
ghost use Rattle.fz_strength.specs.Domains.{Within, IsTermOf};
ghost use Rattle.fz_prop.specs.Stores.{Shrinks, IsTermChange};
ghost use Rattle.fz_cumulative.specs.Tasks.{profile_of};
ghost use Rattle.fz_cumulative.specs.Findings.{IsFree};
ghost use Rattle.fz_cumulative.specs.Outcomes.{AreStarts, AreFree, IsStarting};

use crate::finding::{Blocked, peak, where_blocked};
use fz_prop::terms::{keep_from, keep_to};
use fz_prop::{Change, Store};
use fz_spec::term::Term;
use fz_strength::open_task::OpenTask;
use std::alloc::AllocError;

/// Keeps the start of each task to where it isn't blocked by the parts of the others, as they were before: what blocks it then does
/// so where less is left.
///
/// # Errors
/// `AllocError` where there is no memory; the store is then narrower, and no free assignment is lost.
pub fn keep_starts(
    store: &mut Store,
    starts: &[Term],
    tasks: &[OpenTask],
    loads: &[i128],
    high: i32,
) -> Result<Change, AllocError>
    requires terms { AllByRecursion (IsTermOf (length store.old.doms)) starts.now }
    requires starts { AreStarts store.old.doms tasks.now starts.now }
    requires sound { AllByRecursion IsSound tasks.now }
    requires profile { loads.now ≡ profile_of tasks.now }
    requires positive { pos 0 ≤ℤ high }
    requires within { AllByRecursion (λ load. load ≤ℤ high) loads.now }
    ensures shrinks { Shrinks store.old store.new }
    ensures free { (a : List ℤ) → AreFree tasks.now high starts.now a
        → Within store.old.doms a → Within store.new.doms a }
    ensures change { IfOk result
        (λ r. IsStarting r tasks.now high starts.now store.old store.new) }
{
    let _ = store.doms();
    let peak = peak(loads);
    let mut has_changed = false;
    for place in 0..tasks.len() {
        let Some(blocked) = where_blocked(tasks, loads, place, peak, high) else {
            continue;
        };
        let change = keep_start(store, starts[place], blocked)?;
        if let Change::Wiped = change {
            return Ok(Change::Wiped);
        }
        has_changed = true;
    }
    if has_changed {
        Ok(Change::Changed)
    } else {
        Ok(Change::Same)
    }
}

/// Keeps a start to where its task isn't blocked.
fn keep_start(store: &mut Store, start: Term, blocked: Blocked) -> Result<Change, AllocError>
    requires { IsTermOf (length store.old.doms) start }
    ensures shrinks { Shrinks store.old store.new }
    ensures err { OnErr result (store.new ≡ store.old) }
    ensures change { IfOk result (λ r. IsTermChange r start (IsFree blocked) store.old store.new) }
{
    let _ = store.doms();
    match blocked {
        Blocked::Everywhere => Ok(Change::Wiped),
        Blocked::Before(first) => keep_from(store, start, first),
        Blocked::After(last) => keep_to(store, start, last),
    }
}

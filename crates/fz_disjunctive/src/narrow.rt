//! Narrowing a store by the order of its tasks.
ghost use Rattle.std.specs.Prelude.{◌≡◌, ◌<◌, ℤ, pos, ◌-ℤ◌, ◌≤ℤ◌, List, length, IfOk, IsTrue};
ghost use Rattle.std.specs.List.{AllByRecursion};
ghost use Rattle.fz_spec.specs.Constraints.{term_value};
ghost use Rattle.fz_strength.specs.Domains.{Within, IsTermOf};
ghost use Rattle.fz_prop.specs.Answers.{IsAnswerOf, IsCorrectOf};
ghost use Rattle.fz_prop.specs.Outcomes.{IsOutcome};
ghost use Rattle.fz_prop.specs.Stores.{Shrinks};
ghost use Rattle.fz_cumulative.specs.Cumulatives.{AreTermsOf, TasksShare, TasksRest};
ghost use Rattle.fz_disjunctive.specs.Jobs.{begins};
ghost use Rattle.fz_disjunctive.specs.Outcomes.{IsScheduling};

use crate::job::{Direction, Job};
use crate::order::{earliest_start, soonest_ends, time_of};
use crate::tasks::{are_wide, jobs_of};
use fz_cumulative::{keep_shared, lacks_energy, open_tasks};
use fz_prop::terms::{greatest_of, keep_from, keep_to};
use fz_prop::{Answer, Change, Store};
use fz_spec::term::Term;
use std::alloc::{AllocError, Global};

/// Narrows a store so that tasks use no more than a bound: by their profile, and where that rests, by the order of those of which no
/// two can run at the same time.
///
/// # Errors
/// `AllocError` where there is no memory; the store is then narrower, and no assignment is lost.
pub fn keep_tasks(
    alloc: Global,
    store: &mut Store,
    starts: &[Term],
    durations: &[Term],
    usages: &[Term],
    bound: Term,
) -> Result<Answer, AllocError>
    requires { AreTermsOf (length store.old.doms) starts.now durations.now usages.now bound }
    ensures shrinks { Shrinks store.old store.new }
    ensures correct { IsCorrectOf (TasksShare starts.now durations.now usages.now bound)
        store.old.doms store.new.doms }
    ensures answer { IfOk result (λ r.
        IsAnswerOf r (TasksShare starts.now durations.now usages.now bound)
        (TasksRest starts.now durations.now usages.now bound) store.old.doms store.new.doms) }
{
    match keep_shared(alloc, store, starts, durations, usages, bound)? {
        Answer::Fix => match keep_both(alloc, store, starts, durations, usages, bound)? {
            Change::Same => Ok(Answer::Fix),
            Change::Changed => Ok(Answer::NoFix),
            Change::Wiped => Ok(Answer::Failed),
        },
        answer => Ok(answer),
    }
}

/// Narrows a store by what its tasks use in windows of time, and by the order of those of which no two can run at the same time:
/// forward, and where that changes nothing, backward.
fn keep_both(
    alloc: Global,
    store: &mut Store,
    starts: &[Term],
    durations: &[Term],
    usages: &[Term],
    bound: Term,
) -> Result<Change, AllocError>
    requires { AreTermsOf (length store.old.doms) starts.now durations.now usages.now bound }
    ensures shrinks { Shrinks store.old store.new }
    ensures correct { IsCorrectOf (TasksShare starts.now durations.now usages.now bound)
        store.old.doms store.new.doms }
    ensures outcome { IfOk result
        (λ r. IsOutcome r (TasksShare starts.now durations.now usages.now bound)
        store.old store.new) }
{
    if is_overdrawn(alloc, store, starts, durations, usages, bound)? {
        return Ok(Change::Wiped);
    }
    let forward = Direction::Forward;
    match keep_order(alloc, store, starts, durations, usages, bound, forward)? {
        Change::Same => {
            let backward = Direction::Backward;
            let change = keep_order(alloc, store, starts, durations, usages, bound, backward)?;
            Ok(change)
        }
        change => Ok(change),
    }
}

/// Whether tasks use more than the bound in some window. Where no two of them can run at the same time, their order tells as much.
fn is_overdrawn(
    alloc: Global,
    store: &Store,
    starts: &[Term],
    durations: &[Term],
    usages: &[Term],
    bound: Term,
) -> Result<bool, AllocError>
    requires { AreTermsOf (length store.now.doms) starts.now durations.now usages.now bound }
    ensures { IfOk result (λ r. IsTrue r → (a : List ℤ) → Within store.now.doms a
        → TasksShare starts.now durations.now usages.now bound a → ⊥) }
{
    let tasks = open_tasks(alloc, store, starts, durations, usages)?;
    let high = greatest_of(store, bound);
    if are_wide(&tasks, high) {
        return Ok(false);
    }
    lacks_energy(alloc, store, starts, durations, usages, bound)
}

/// Narrows a store by the order of those tasks of which no two can run at the same time, in one direction.
fn keep_order(
    alloc: Global,
    store: &mut Store,
    starts: &[Term],
    durations: &[Term],
    usages: &[Term],
    bound: Term,
    direction: Direction,
) -> Result<Change, AllocError>
    requires { AreTermsOf (length store.old.doms) starts.now durations.now usages.now bound }
    ensures shrinks { Shrinks store.old store.new }
    ensures correct { IsCorrectOf (TasksShare starts.now durations.now usages.now bound)
        store.old.doms store.new.doms }
    ensures outcome { IfOk result
        (λ r. IsOutcome r (TasksShare starts.now durations.now usages.now bound)
        store.old store.new) }
{
    let _ = store.doms();
    let tasks = open_tasks(alloc, store, starts, durations, usages)?;
    let high = greatest_of(store, bound);
    let jobs = jobs_of(alloc, &tasks, high, direction)?;
    if jobs.len() < 2 {
        return Ok(Change::Same);
    }
    match soonest_ends(alloc, &jobs)? {
        None => Ok(Change::Wiped),
        Some(ends) => {
            let change = keep_starts(store, starts, &jobs, &ends, direction)?;
            Ok(change)
        }
    }
}

/// Keeps each job that isn't fixed from the earliest start on that the order leaves, as the jobs were before. `ends` are their soonest
/// ends.
fn keep_starts(
    store: &mut Store,
    starts: &[Term],
    jobs: &[Job],
    ends: &[i128],
    direction: Direction,
) -> Result<Change, AllocError>
    requires terms { AllByRecursion (IsTermOf (length store.old.doms)) starts.now }
    requires places { AllByRecursion (λ (job : Job). job.place < length starts.now) jobs.now }
    requires ends { length ends.now ≡ length jobs.now }
    ensures shrinks { Shrinks store.old store.new }
    ensures correct { IsCorrectOf (IsScheduling direction jobs.now starts.now)
        store.old.doms store.new.doms }
    ensures outcome { IfOk result
        (λ r. IsOutcome r (IsScheduling direction jobs.now starts.now) store.old store.new) }
{
    let total = time_of(jobs);
    let mut has_changed = false;
    for index in 0..jobs.len() {
        let job = jobs[index];
        if job.earliest == job.latest {
            continue;
        }
        let time = earliest_start(jobs, ends, total, index);
        if time <= i128::from(job.earliest) {
            continue;
        }
        let change = keep_start(store, starts[job.place], job.duration, time, direction)?;
        if let Change::Wiped = change {
            return Ok(Change::Wiped);
        }
        if let Change::Same = change {
            continue;
        }
        has_changed = true;
    }
    if has_changed {
        Ok(Change::Changed)
    } else {
        Ok(Change::Same)
    }
}

/// The latest start of a task that begins no sooner than a time, read backward.
fn last_start(time: i64, duration: i32) -> i128
    ensures { result ≡ (pos 0 -ℤ time) -ℤ duration }
{
    0 - i128::from(time) - i128::from(duration)
}

/// Keeps a start to where the task begins at a time or after it, if the time is one that can be compared with starts.
fn keep_start(
    store: &mut Store,
    start: Term,
    duration: i32,
    time: i128,
    direction: Direction,
) -> Result<Change, AllocError>
    requires { IsTermOf (length store.old.doms) start }
    ensures shrinks { Shrinks store.old store.new }
    ensures correct { IsCorrectOf (λ a. time ≤ℤ begins direction (term_value a start) duration)
        store.old.doms store.new.doms }
    ensures outcome { IfOk result
        (λ r. IsOutcome r (λ a. time ≤ℤ begins direction (term_value a start) duration)
        store.old store.new) }
{
    let _ = store.doms();
    let Ok(time) = i64::try_from(time) else {
        return Ok(Change::Same);
    };
    match direction {
        Direction::Forward => match i32::try_from(time) {
            Ok(first) => keep_from(store, start, first),
            Err(_) => Ok(Change::Same),
        },
        Direction::Backward => match i32::try_from(last_start(time, duration)) {
            Ok(last) => Ok(keep_to(store, start, last)?),
            Err(_) => Ok(Change::Same),
        },
    }
}

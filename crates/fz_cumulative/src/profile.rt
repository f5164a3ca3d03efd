//! The profile of what tasks are sure to use, and where it leaves a task too little.
ghost use Rattle.std.specs.Prelude.{◌≡◌, ◌^◌, ◌<◌, ◌≤◌, ◌↔◌, pos, ◌+ℤ◌, ◌-ℤ◌, ◌≤ℤ◌, ◌<ℤ◌, IsTrue, IsNone, IfSome, List, length, IfOk, unsigned_abs, slice_get, Some};
ghost use Rattle.std.specs.Int.{int_max, int_min};
ghost use Rattle.std.specs.List.{AllByRecursion};
ghost use Rattle.fz_strength.specs.Cumulatives as line;
ghost use Rattle.fz_strength.specs.Cumulatives.{IsSound, IsRoom};
ghost use Rattle.fz_cumulative.specs.Tasks.{IsAt, profile_of, IsRunning, IsPassed, IsMet, IsConflict, IsStretch};

use crate::tasks::{is_before, is_in_part, minus, part_at, parts_at, plus};
use fz_strength::open_task::OpenTask;
use std::alloc::{AllocError, Global};

/// What all tasks are sure to use at the latest start of each.
///
/// # Errors
/// `AllocError` where there is no memory.
pub fn profile(alloc: Global, tasks: &[OpenTask]) -> Result<Vec<i128>, AllocError>
    ensures { IfOk result (λ v. v.items ≡ profile_of tasks.now) }
{
    let mut loads = Vec::with_capacity(alloc, tasks.len())?;
    for i in 0..tasks.len() {
        loads.push(parts_at(tasks, tasks[i].latest))?;
    }
    Ok(loads)
}

/// Whether a load is above a limit.
fn is_above(load: i128, limit: i64) -> bool
    ensures { IsTrue result ↔ (limit <ℤ load) }
{
    load > i128::from(limit)
}

/// Whether a task passes the bound at a time with the parts of the others, where all parts are a load.
fn passes(task: OpenTask, load: i128, time: i32, bound: i32) -> bool
    ensures { IsTrue result ↔ IsPassed task load time bound }
{
    is_above(load, minus(plus(bound, part_at(task, time)), task.usage))
}

/// Whether a task that begins at a start lasts to a time.
fn runs_at(task: OpenTask, start: i32, time: i32) -> bool
    ensures { IsTrue result ↔ IsRunning task start time }
{
    start <= time && is_before(time, plus(start, task.duration))
}

/// Whether a task that begins at a start meets a time where it passes the bound with the parts of the others.
fn meets(task: OpenTask, load: i128, start: i32, time: i32, bound: i32) -> bool
    ensures { IsTrue result ↔ IsMet task load start time bound }
{
    runs_at(task, start, time) && passes(task, load, time, bound)
}

/// A time at which the task at a place that begins at a start meets parts of the others with which it passes the bound, if there
/// is one.
pub fn conflict(
    tasks: &[OpenTask],
    loads: &[i128],
    place: usize,
    start: i32,
    bound: i32,
) -> Option<i32>
    requires sound { AllByRecursion IsSound tasks.now }
    requires profile { loads.now ≡ profile_of tasks.now }
    requires place { place < length tasks.now }
    requires lasts { IsAt tasks.now place (λ task. pos 0 <ℤ task.duration) }
    ensures none { (task : OpenTask) → slice_get tasks.now place ≡ Some task → IsNone result
        → IsRoom tasks.now bound place task start }
    ensures some { (task : OpenTask) → slice_get tasks.now place ≡ Some task → IfSome result
        (λ time. IsConflict tasks.now bound place task start time) }
{
    let task = tasks[place];
    if meets(task, parts_at(tasks, start), start, start, bound) {
        return Some(start);
    }
    for i in 0..tasks.len() {
        let time = tasks[i].latest;
        if meets(task, loads[i], start, time, bound) {
            return Some(time);
        }
    }
    None
}

/// From when, and up to when, all tasks are in their compulsory parts.
#[derive(Clone, Copy)]
pub struct Stretch {
    pub since: i64,
    pub until: i64,
}

/// As much of a stretch as a task is in its compulsory part.
fn shorter(stretch: Stretch, task: OpenTask) -> Stretch
    ensures since { result.since ≡ int_max stretch.since task.latest }
    ensures until { result.until ≡ int_min stretch.until (task.earliest +ℤ task.duration) }
{
    Stretch {
        since: stretch.since.max(i64::from(task.latest)),
        until: stretch.until.min(plus(task.earliest, task.duration)),
    }
}

/// From when, and up to when, all other tasks are in their compulsory parts that are at a time.
pub fn stretch_at(tasks: &[OpenTask], place: usize, time: i32) -> Stretch
    ensures stretch { IsStretch tasks.now place time result.since result.until }
    ensures near { unsigned_abs result.since ≤ 2 ^ 40 }
    ensures near_end { unsigned_abs result.until ≤ 2 ^ 40 }
{
    let mut stretch = Stretch {
        since: -1_099_511_627_776,
        until: 1_099_511_627_776,
    };
    for i in 0..tasks.len() {
        if i != place && is_in_part(tasks[i], time) {
            stretch = shorter(stretch, tasks[i]);
        }
    }
    stretch
}

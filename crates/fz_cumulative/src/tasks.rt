//! Tasks as far as a store knows them.
ghost use Rattle.std.specs.Prelude.{◌≡◌, ◌+◌, ◌*◌, ◌^◌, ◌<◌, ◌≤◌, ◌↔◌, ◌+ℤ◌, ◌-ℤ◌, ◌<ℤ◌, IsTrue, List, length, IfOk, unsigned_abs};
ghost use Rattle.std.specs.List.{AllByRecursion};
ghost use Rattle.fz_strength.specs.Cumulatives as line;
ghost use Rattle.fz_strength.specs.Domains.{IsTermOf};
ghost use Rattle.fz_cumulative.specs.Tasks.{IsInPart};

use fz_prop::Store;
use fz_prop::terms::{greatest_of, least_of};
use fz_spec::term::Term;
use fz_strength::open_task::OpenTask;
use std::alloc::{AllocError, Global};

/// The task of three terms, as far as it is known.
fn open_task(store: &Store, start: Term, duration: Term, usage: Term) -> OpenTask
    requires start { IsTermOf (length store.now.doms) start }
    requires duration { IsTermOf (length store.now.doms) duration }
    requires usage { IsTermOf (length store.now.doms) usage }
    ensures { result ≡ line.open_task store.now.doms start duration usage }
{
    OpenTask {
        earliest: least_of(store, start),
        latest: greatest_of(store, start),
        duration: least_of(store, duration),
        usage: least_of(store, usage),
    }
}

/// The tasks of three lists, one by one to the end of the shortest.
///
/// # Errors
/// `AllocError` where there is no memory.
pub fn open_tasks(
    alloc: Global,
    store: &Store,
    starts: &[Term],
    durations: &[Term],
    usages: &[Term],
) -> Result<Vec<OpenTask>, AllocError>
    requires starts { AllByRecursion (IsTermOf (length store.now.doms)) starts.now }
    requires durations { AllByRecursion (IsTermOf (length store.now.doms)) durations.now }
    requires usages { AllByRecursion (IsTermOf (length store.now.doms)) usages.now }
    ensures { IfOk result (λ v.
        v.items ≡ line.open_tasks store.now.doms starts.now durations.now usages.now) }
{
    let mut tasks = Vec::with_capacity(alloc, starts.len())?;
    for i in 0..starts.len().min(durations.len()).min(usages.len()) {
        tasks.push(open_task(store, starts[i], durations[i], usages[i]))?;
    }
    Ok(tasks)
}

/// A sum, which fits.
pub fn plus(first: i32, second: i32) -> i64
    ensures sum { result ≡ first +ℤ second }
    ensures near { unsigned_abs result ≤ 2 ^ 32 }
{
    i64::from(first) + i64::from(second)
}

/// A difference, which fits.
pub fn minus(value: i64, number: i32) -> i64
    requires { unsigned_abs value ≤ 2 ^ 40 }
    ensures { result ≡ value -ℤ number }
{
    value - i64::from(number)
}

/// Whether a time is before another.
pub fn is_before(time: i32, end: i64) -> bool
    ensures { IsTrue result ↔ (time <ℤ end) }
{
    i64::from(time) < end
}

/// Whether a time is in the compulsory part of a task.
pub fn is_in_part(task: OpenTask, time: i32) -> bool
    ensures { IsTrue result ↔ IsInPart task time }
{
    task.latest <= time && is_before(time, plus(task.earliest, task.duration))
}

/// What a task is sure to use at a time.
pub fn part_at(task: OpenTask, time: i32) -> i32
    ensures { result ≡ line.part_at time task }
{
    if is_in_part(task, time) {
        task.usage
    } else {
        0
    }
}

/// What that many tasks use, and one more.
fn add(load: i128, part: i32, count: usize) -> i128
    requires { unsigned_abs load ≤ count * 2 ^ 32 }
    ensures sum { result ≡ load +ℤ part }
    ensures near { unsigned_abs result ≤ (count + 1) * 2 ^ 32 }
{
    load + i128::from(part)
}

/// What all tasks are sure to use at a time.
pub fn parts_at(tasks: &[OpenTask], time: i32) -> i128
    ensures { result ≡ line.parts_at time tasks.now }
{
    let mut load = 0;
    for i in 0..tasks.len() {
        load = add(load, part_at(tasks[i], time), i);
    }
    load
}

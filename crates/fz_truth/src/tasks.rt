//! Tasks that share a resource.
ghost use Rattle.std.specs.Prelude.{◌≡◌, ◌↔◌, ◌<◌, ◌≤◌, ◌*◌, ◌^◌, pos, ◌≤ℤ◌, ◌<ℤ◌, IsTrue, length, slice_index_or};
ghost use Rattle.std.specs.List.{AllByRecursion};
ghost use Rattle.std.specs.Int.RustNames.{unsigned_abs};
ghost use Rattle.fz_spec.specs.Truth as truth;
ghost use Rattle.fz_spec.specs.Truth.{IsCumulative, IsTask, load_at};
ghost use Rattle.fz_truth.specs.Listed.{task_of, listed};

use fz_model::value_of;
use fz_spec::term::Term;

/// The tasks of three lists of terms, one by one to the end of the shortest, and the values of variables.
#[derive(Clone, Copy)]
pub(crate) struct Tasks<'t> {
    pub(crate) starts: &'t [Term],
    pub(crate) durations: &'t [Term],
    pub(crate) usages: &'t [Term],
    pub(crate) values: &'t [i32],
}

/// When a task starts, how long it lasts, and how much it uses.
#[derive(Clone, Copy)]
struct Task {
    start: i32,
    duration: i32,
    usage: i32,
}

/// Whether nothing is negative, and where a task that lasts starts the load is at most the bound. The time is the square of the
/// number of tasks.
pub(crate) fn is_cumulative(tasks: Tasks<'_>, bound: i32) -> bool
    ensures { IsTrue result ↔ IsCumulative (listed tasks.entry) bound }
{
    if bound < 0 {
        return false;
    }
    are_tasks(tasks) && are_within(tasks, bound)
}

/// Whether all have lengths and usages of at least 0.
fn are_tasks(tasks: Tasks<'_>) -> bool
    ensures { IsTrue result ↔ AllByRecursion IsTask (listed tasks.entry) }
{
    for i in 0..count(tasks) {
        let task = task_at(tasks, i);
        if task.duration < 0 || task.usage < 0 {
            return false;
        }
    }
    true
}

fn are_within(tasks: Tasks<'_>, bound: i32) -> bool
    ensures { IsTrue result ↔ AllByRecursion
        (λ task. pos 0 <ℤ task.duration → load_at task.start (listed tasks.entry) ≤ℤ bound)
        (listed tasks.entry) }
{
    for i in 0..count(tasks) {
        if !is_within(tasks, task_at(tasks, i), bound) {
            return false;
        }
    }
    true
}

/// Whether the load is at most the bound where a task starts, if it lasts.
fn is_within(tasks: Tasks<'_>, task: Task, bound: i32) -> bool
    ensures { IsTrue result ↔
        (pos 0 <ℤ task.duration → load_at task.start (listed tasks.entry) ≤ℤ bound) }
{
    task.duration <= 0 || load(tasks, task.start) <= i128::from(bound)
}

/// What all tasks use at a time.
fn load(tasks: Tasks<'_>, time: i32) -> i128
    ensures { result ≡ load_at time (listed tasks.entry) }
{
    let mut load = 0;
    for i in 0..count(tasks) {
        load += usage_at(time, task_at(tasks, i));
    }
    load
}

/// What a task uses at a time.
fn usage_at(time: i32, task: Task) -> i128
    ensures is { result ≡ truth.usage_at time (task_of task) }
    ensures near { unsigned_abs result ≤ 2 ^ 31 }
{
    if time < task.start {
        return 0;
    }
    if i64::from(time) >= i64::from(task.start) + i64::from(task.duration) {
        return 0;
    }
    i128::from(task.usage)
}

/// How many tasks there are.
fn count(tasks: Tasks<'_>) -> usize
    ensures all { result ≡ length (listed tasks.entry) }
    ensures starts { result ≤ length tasks.entry.starts.now }
    ensures durations { result ≤ length tasks.entry.durations.now }
    ensures usages { result ≤ length tasks.entry.usages.now }
{
    tasks
        .starts
        .len()
        .min(tasks.durations.len())
        .min(tasks.usages.len())
}

fn task_at(tasks: Tasks<'_>, i: usize) -> Task
    requires start { i < length tasks.starts.now }
    requires duration { i < length tasks.durations.now }
    requires usage { i < length tasks.usages.now }
    ensures { task_of result ≡ slice_index_or (listed tasks.entry) i (task_of result) }
{
    Task {
        start: value_of(tasks.starts[i], tasks.values),
        duration: value_of(tasks.durations[i], tasks.values),
        usage: value_of(tasks.usages[i], tasks.values),
    }
}

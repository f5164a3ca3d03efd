//! The jobs among tasks.
ghost use Rattle.std.specs.Prelude.{◌≡◌, ◌<◌, pos, ◌+ℤ◌, ◌-ℤ◌, IsTrue, IfOk, length};
ghost use Rattle.fz_disjunctive.specs.Jobs.{AreJobs, IsWide, job_of};

use crate::job::{Direction, Job};
use fz_strength::open_task::OpenTask;
use std::alloc::{AllocError, Global};

/// Twice a usage.
fn double(usage: i32) -> i64
    ensures { result ≡ usage +ℤ usage }
{
    i64::from(usage) + i64::from(usage)
}

/// Whether a task lasts and uses more than half of a bound.
fn is_wide(task: OpenTask, high: i32) -> bool
    ensures { IsTrue result → IsWide task high }
{
    task.duration > 0 && double(task.usage) > i64::from(high)
}

/// When a task begins that starts at a time, read backward.
fn mirrored(start: i32, duration: i32) -> i64
    ensures { result ≡ pos 0 -ℤ (start +ℤ duration) }
{
    0 - i64::from(start) - i64::from(duration)
}

/// The job that the task at a place is.
fn job_of(task: OpenTask, place: usize, direction: Direction) -> Job
    ensures { result ≡ job_of direction place task }
{
    match direction {
        Direction::Forward => Job {
            place,
            earliest: i64::from(task.earliest),
            latest: i64::from(task.latest),
            duration: task.duration,
        },
        Direction::Backward => Job {
            place,
            earliest: mirrored(task.latest, task.duration),
            latest: mirrored(task.earliest, task.duration),
            duration: task.duration,
        },
    }
}

/// Whether a task has ended before another can begin.
fn ends_before(task: OpenTask, other: OpenTask) -> bool {
    i64::from(task.latest) + i64::from(task.duration) <= i64::from(other.earliest)
}

/// Whether no other task can run at a time at which the one at a place can.
fn runs_alone(tasks: &[OpenTask], place: usize) -> bool
    requires { place < length tasks.now }
{
    let task = tasks[place];
    for other in 0..tasks.len() {
        if other == place {
            continue;
        }
        if !ends_before(task, tasks[other]) && !ends_before(tasks[other], task) {
            return false;
        }
    }
    true
}

/// Whether all tasks use more than half of a bound.
pub fn are_wide(tasks: &[OpenTask], high: i32) -> bool {
    for place in 0..tasks.len() {
        if !is_wide(tasks[place], high) {
            return false;
        }
    }
    true
}

/// The jobs that tasks are, from the last to the first earliest start: those that last and use more than half of a bound, but for
/// those that run alone.
///
/// # Errors
/// `AllocError` where there is no memory.
pub fn jobs_of(
    alloc: Global,
    tasks: &[OpenTask],
    high: i32,
    direction: Direction,
) -> Result<Vec<Job>, AllocError>
    ensures { IfOk result (λ v. AreJobs direction tasks.now high v.items) }
{
    let mut jobs = Vec::with_capacity(alloc, tasks.len())?;
    for place in 0..tasks.len() {
        if !is_wide(tasks[place], high) {
            continue;
        }
        if runs_alone(tasks, place) {
            continue;
        }
        jobs.push(job_of(tasks[place], place, direction))?;
    }
    jobs.sort_unstable_by(|one: &Job, other: &Job| other.earliest.cmp(&one.earliest));
    Ok(jobs)
}

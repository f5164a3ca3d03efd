//! In which order jobs can run (Vilím: "Global constraints in scheduling").
ghost use Rattle.std.specs.Prelude.{◌≡◌, ◌+◌, ◌*◌, ◌^◌, ◌≤◌, ◌<◌, ◌+ℤ◌, IsTrue, IfOk, IfSome, MatchOption, length, unsigned_abs};
ghost use Rattle.fz_disjunctive.specs.declared.job.Choice.TheVariants.{EndingBy};
ghost use Rattle.fz_disjunctive.specs.Schedules.{IsSoonestEnd, IsBehind, IsEarliest, IsOfJob, HasNoSchedule, IsLoad, chosen};

use crate::job::{Choice, Job};
use std::alloc::{AllocError, Global};

/// What that many jobs need, and one more.
fn add(total: i128, duration: i32, count: usize) -> i128
    requires { unsigned_abs total ≤ count * 2 ^ 32 }
    ensures sum { result ≡ total +ℤ duration }
    ensures near { unsigned_abs result ≤ (count + 1) * 2 ^ 32 }
{
    total + i128::from(duration)
}

/// A time, and what jobs need from then on.
fn plus(since: i64, total: i128) -> i128
    requires { unsigned_abs total ≤ 2 ^ 100 }
    ensures { result ≡ since +ℤ total }
{
    i128::from(since) + total
}

/// How soon all jobs that are chosen can have ended, from a floor on: those that start no sooner than some time last from then on,
/// one after the other.
pub fn soonest_end(jobs: &[Job], choice: Choice, floor: i128) -> i128
    ensures { IsSoonestEnd jobs.now choice floor result }
{
    let mut end = floor;
    let mut since = i64::MAX;
    let mut total = 0;
    for index in 0..jobs.len() {
        let job = jobs[index];
        if !choice.takes(job) {
            continue;
        }
        since = since.min(job.earliest);
        total = add(total, job.duration, index);
        end = end.max(plus(since, total));
    }
    end
}

/// For each job how soon all can have ended that end by its latest end at the latest; `None` where that is later for one.
///
/// # Errors
/// `AllocError` where there is no memory.
pub fn soonest_ends(alloc: Global, jobs: &[Job]) -> Result<Option<Vec<i128>>, AllocError>
    ensures { IfOk result (λ ends. MatchOption ends (HasNoSchedule jobs.now)
        (λ v. length v.items ≡ length jobs.now)) }
{
    let mut ends = Vec::with_capacity(alloc, jobs.len())?;
    for index in 0..jobs.len() {
        let time = jobs[index].latest_end();
        let end = soonest_end(jobs, Choice::EndingBy(time), i128::MIN);
        if end > time {
            return Ok(None);
        }
        ends.push(end)?;
    }
    Ok(Some(ends))
}

/// How long jobs last together, or less.
pub fn time_of(jobs: &[Job]) -> i64 {
    let mut total = 0i64;
    for index in 0..jobs.len() {
        total = total.saturating_add(i64::from(jobs[index].duration));
    }
    total
}

/// When the job at an index can start: once those have ended that come before it. `ends` are the soonest ends of the jobs, `total` is
/// how long all last.
pub fn earliest_start(jobs: &[Job], ends: &[i128], total: i64, index: usize) -> i128
    requires index { index < length jobs.now }
    requires ends { length ends.now ≡ length jobs.now }
    ensures { IsOfJob jobs.now index (IsEarliest jobs.now result) }
{
    let all = start_behind_all(jobs, ends, index);
    let one = start_behind_one(jobs, total, index);
    all.max(one)
}

/// When the job at an index can start, since all of some others come before it: once they have ended. Where the soonest ends tell that
/// nothing is to be found, nothing is looked for.
fn start_behind_all(jobs: &[Job], ends: &[i128], index: usize) -> i128
    requires index { index < length jobs.now }
    requires ends { length ends.now ≡ length jobs.now }
    ensures { IsOfJob jobs.now index (IsEarliest jobs.now result) }
{
    let job = jobs[index];
    let mut earliest = soonest_end(jobs, Choice::Before(job), i128::from(job.earliest));
    for other in 0..jobs.len() {
        let time = jobs[other].latest_end();
        let end = ends[other];
        if end <= earliest || end.saturating_add(i128::from(job.duration)) <= time {
            continue;
        }
        if !is_behind(jobs, index, time) {
            continue;
        }
        earliest = soonest_end(jobs, Choice::EndingBy(time), earliest);
    }
    earliest
}

/// Whether the job at an index comes after all that have ended by a time at the latest, since it can't end by then beside them.
fn is_behind(jobs: &[Job], index: usize, time: i128) -> bool
    requires { index < length jobs.now }
    ensures { IsTrue result → IsOfJob jobs.now index (IsBehind jobs.now (EndingBy time)) }
{
    let job = jobs[index];
    if job.latest_end() <= time {
        return false;
    }
    soonest_end(jobs, Choice::EndingByOrAt(time, job.place), time) > time
}

/// What jobs need, and a time before which none of them can have ended.
#[derive(Clone, Copy)]
struct Load {
    total: i128,
    first_end: i128,
}

/// What the jobs that are chosen need, and how soon one of them can have ended.
fn load_of(jobs: &[Job], choice: Choice) -> Load
    ensures load { IsLoad (chosen choice jobs.now) result.total result.first_end }
    ensures near { unsigned_abs result.total ≤ length jobs.now * 2 ^ 32 }
{
    let mut load = Load {
        total: 0,
        first_end: i128::MAX,
    };
    for index in 0..jobs.len() {
        let job = jobs[index];
        if !choice.takes(job) {
            continue;
        }
        load = Load {
            total: add(load.total, job.duration, index),
            first_end: load.first_end.min(job.earliest_end()),
        };
    }
    load
}

/// When the job at an index can start, since it can't come before all of some others: once one of them has ended. Where all jobs
/// together last no longer than there is time, nothing is looked for.
fn start_behind_one(jobs: &[Job], total: i64, index: usize) -> i128
    requires { index < length jobs.now }
    ensures { IsOfJob jobs.now index (IsEarliest jobs.now result) }
{
    let job = jobs[index];
    let mut earliest = i128::from(job.earliest);
    let most = i128::from(job.earliest.saturating_add(total));
    for other in 0..jobs.len() {
        let time = jobs[other].latest_end();
        if most <= time {
            continue;
        }
        if !Choice::Beside(job, time).takes(jobs[other]) {
            continue;
        }
        let Some(end) = end_of_one(jobs, index, time) else {
            continue;
        };
        earliest = earliest.max(end);
    }
    earliest
}

/// How soon one of those beside a job that have to end by a time has ended, if the job can't come first: it and they need more than
/// there is from its start up to that time.
fn end_of_one(jobs: &[Job], index: usize, time: i128) -> Option<i128>
    requires { index < length jobs.now }
    ensures { IfSome result (λ end. IsOfJob jobs.now index (IsEarliest jobs.now end)) }
{
    let job = jobs[index];
    let load = load_of(jobs, Choice::Beside(job, time));
    let total = add(load.total, job.duration, jobs.len());
    if load.total > 0 && plus(job.earliest, total) > time {
        Some(load.first_end)
    } else {
        None
    }
}

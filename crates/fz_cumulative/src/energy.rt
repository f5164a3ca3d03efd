//! What tasks use in windows of time, and whether that is more than there is (Erschler, Lopez: "Energy-based approach for task
//! scheduling under time and resources constraints").
ghost use Rattle.std.specs.Prelude.{◌≡◌, ◌+◌, ◌*◌, ◌^◌, ◌≤◌, ℤ, pos, ◌+ℤ◌, ◌-ℤ◌, ◌*ℤ◌, List, length, IfOk, IsTrue, unsigned_abs};
ghost use Rattle.std.specs.Int.{int_min, int_max};
ghost use Rattle.fz_strength.specs.Domains.{Within};
ghost use Rattle.fz_cumulative.specs.Cumulatives.{AreTermsOf, TasksShare};
ghost use Rattle.fz_cumulative.specs.Energies.{overlap, least_overlap, energy_in, IsOverdrawnIn, IsOverdrawn};

use crate::finding::first_negative;
use crate::tasks::{minus, open_tasks, plus};
use fz_prop::Store;
use fz_prop::terms::{greatest_of, least_of};
use fz_spec::term::Term;
use fz_strength::open_task::OpenTask;
use std::alloc::{AllocError, Global};

/// Where there are more tasks, no windows are looked at: their number is the square of that of the tasks.
const MOST_TASKS: usize = 200;

/// From when, and up to when, not with it.
#[derive(Clone, Copy)]
struct Window {
    since: i32,
    until: i64,
}

/// The later of two times.
#[tactic(auto, using(crate::proofs::Energies::greatest_first, crate::proofs::Energies::greatest_second))]
fn later(time: i32, other: i32) -> i32
    ensures { result ≡ int_max time other }
{
    if time < other { other } else { time }
}

/// The lesser of two numbers.
#[tactic(auto, using(crate::proofs::Energies::least_first, crate::proofs::Energies::least_second))]
fn lesser(number: i64, other: i64) -> i64
    requires number { unsigned_abs number ≤ 2 ^ 34 }
    requires other { unsigned_abs other ≤ 2 ^ 34 }
    ensures lesser { result ≡ int_min number other }
    ensures near { unsigned_abs result ≤ 2 ^ 34 }
{
    if number < other { number } else { other }
}

/// How long it is from a time to another, 0 where that is before.
#[tactic(auto, using(crate::proofs::Energies::greatest_first, crate::proofs::Energies::greatest_second))]
fn length(begin: i32, end: i64) -> i64
    requires { unsigned_abs end ≤ 2 ^ 32 }
    ensures length { result ≡ int_max (pos 0) (end -ℤ begin) }
    ensures near { unsigned_abs result ≤ 2 ^ 34 }
{
    let length = minus(end, begin);
    if 0 < length { length } else { 0 }
}

/// The end of what starts at a time and lasts so long, or that of a window, which is sooner.
#[tactic(auto, using(crate::proofs::Energies::least_first, crate::proofs::Energies::least_second))]
fn end_within(until: i64, start: i32, duration: i32) -> i64
    requires { unsigned_abs until ≤ 2 ^ 32 }
    ensures end { result ≡ int_min until (start +ℤ duration) }
    ensures near { unsigned_abs result ≤ 2 ^ 32 }
{
    let end = plus(start, duration);
    if until < end { until } else { end }
}

/// For how long what starts at a time and lasts so long runs in a window.
fn overlap(window: Window, start: i32, duration: i32) -> i64
    requires { unsigned_abs window.until ≤ 2 ^ 32 }
    ensures overlap { result ≡ overlap window.since window.until start duration }
    ensures near { unsigned_abs result ≤ 2 ^ 34 }
{
    let begin = later(window.since, start);
    length(begin, end_within(window.until, start, duration))
}

/// How long a task runs in a window at least.
fn least_overlap(window: Window, task: OpenTask) -> i64
    requires { unsigned_abs window.until ≤ 2 ^ 32 }
    ensures overlap { result ≡ least_overlap window.since window.until task }
    ensures near { unsigned_abs result ≤ 2 ^ 34 }
{
    let first = overlap(window, task.earliest, task.duration);
    let last = overlap(window, task.latest, task.duration);
    lesser(first, last)
}

/// What a task uses in so long a time.
fn use_of(usage: i32, time: i64) -> i128
    requires { unsigned_abs time ≤ 2 ^ 34 }
    ensures product { result ≡ usage *ℤ time }
    ensures near { unsigned_abs result ≤ 2 ^ 66 }
{
    i128::from(usage) * i128::from(time)
}

/// What a task uses in a window at least.
fn use_in(window: Window, task: OpenTask) -> i128
    requires { unsigned_abs window.until ≤ 2 ^ 32 }
    ensures product { result ≡ task.usage *ℤ least_overlap window.since window.until task }
    ensures near { unsigned_abs result ≤ 2 ^ 66 }
{
    use_of(task.usage, least_overlap(window, task))
}

/// What that many tasks use, and one more.
fn add(total: i128, more: i128, count: usize) -> i128
    requires few { count ≤ 2 ^ 20 }
    requires total { unsigned_abs total ≤ count * 2 ^ 66 }
    requires more { unsigned_abs more ≤ 2 ^ 66 }
    ensures sum { result ≡ total +ℤ more }
    ensures near { unsigned_abs result ≤ (count + 1) * 2 ^ 66 }
{
    total + more
}

/// What all tasks use in a window at least.
fn energy_in(tasks: &[OpenTask], window: Window) -> i128
    requires few { length tasks.now ≤ 2 ^ 20 }
    requires near { unsigned_abs window.until ≤ 2 ^ 32 }
    ensures { result ≡ energy_in window.since window.until tasks.now }
{
    let mut total = 0;
    for i in 0..tasks.len() {
        total = add(total, use_in(window, tasks[i]), i);
    }
    total
}

/// How long a window is.
fn width(window: Window) -> i64
    requires { unsigned_abs window.until ≤ 2 ^ 32 }
    ensures width { result ≡ window.until -ℤ window.since }
    ensures near { unsigned_abs result ≤ 2 ^ 34 }
{
    minus(window.until, window.since)
}

/// What a bound allows in a window.
fn room_in(window: Window, high: i32) -> i128
    requires { unsigned_abs window.until ≤ 2 ^ 32 }
    ensures { result ≡ high *ℤ (window.until -ℤ window.since) }
{
    use_of(high, width(window))
}

/// Whether tasks seem to use more in a window than there is room for. This is a hint, in 64 bits: a sum that doesn't fit is as large as
/// may be.
fn seems_overdrawn(tasks: &[OpenTask], window: Window, room: i128) -> bool
    requires { unsigned_abs window.until ≤ 2 ^ 32 }
{
    let mut total = 0i64;
    for task in tasks {
        let more = i64::from(task.usage).saturating_mul(least_overlap(window, *task));
        total = total.saturating_add(more);
    }
    room < i128::from(total)
}

/// Whether tasks use more in a window than a bound allows. Nothing is added up if all that they ever use is no more, and nothing exactly
/// if it seems to be no more.
fn is_overdrawn_in(tasks: &[OpenTask], window: Window, high: i32, most: i128) -> bool
    requires few { length tasks.now ≤ 2 ^ 20 }
    requires near { unsigned_abs window.until ≤ 2 ^ 32 }
    ensures { IsTrue result → IsOverdrawnIn tasks.now high window.since window.until }
{
    if i64::from(window.since) > window.until {
        return false;
    }
    let room = room_in(window, high);
    room < most && seems_overdrawn(tasks, window, room) && room < energy_in(tasks, window)
}

/// Whether a task may run outside a window.
fn leaves(task: OpenTask, window: Window) -> bool {
    task.earliest < window.since || window.until < plus(task.latest, task.duration)
}

/// What tasks use in all, or less.
fn most_of(tasks: &[OpenTask]) -> i128 {
    let mut most = 0i128;
    for task in tasks {
        let time = i64::from(task.duration).max(0);
        most = most.saturating_add(i128::from(task.usage).saturating_mul(i128::from(time)));
    }
    most
}

/// Whether tasks use more than a bound allows in some window from the earliest start of one to the latest end of one, where both lie
/// within.
fn is_overdrawn(tasks: &[OpenTask], high: i32) -> bool
    requires { length tasks.now ≤ 2 ^ 20 }
    ensures { IsTrue result → IsOverdrawn tasks.now high }
{
    let most = most_of(tasks);
    for first in 0..tasks.len() {
        for last in 0..tasks.len() {
            let window = Window {
                since: tasks[first].earliest,
                until: plus(tasks[last].latest, tasks[last].duration),
            };
            if leaves(tasks[first], window) || leaves(tasks[last], window) {
                continue;
            }
            if is_overdrawn_in(tasks, window, high, most) {
                return true;
            }
        }
    }
    false
}

/// Whether tasks use more than the bound in some window, whatever is chosen of what is left.
///
/// # Errors
/// `AllocError` where there is no memory.
pub fn lacks_energy(
    alloc: Global,
    store: &Store,
    starts: &[Term],
    durations: &[Term],
    usages: &[Term],
    bound: Term,
) -> Result<bool, AllocError>
    requires { AreTermsOf (length store.now.doms) starts.now durations.now usages.now bound }
    ensures { IfOk result (λ r. IsTrue r → (a : List ℤ) → Within store.now.doms a
        → TasksShare starts.now durations.now usages.now bound a → ⊥) }
{
    let _ = store.doms();
    let tasks = open_tasks(alloc, store, starts, durations, usages)?;
    let (low, high) = (least_of(store, bound), greatest_of(store, bound));
    if tasks.len() > MOST_TASKS {
        return Ok(false);
    }
    if let Some(_) = first_negative(&tasks, low) {
        return Ok(false);
    }
    Ok(is_overdrawn(&tasks, high))
}

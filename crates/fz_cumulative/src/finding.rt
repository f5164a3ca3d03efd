//! What is found of tasks that share a bounded resource.
ghost use Rattle.std.specs.Prelude.{◌≡◌, ℕ, ℤ, pos, ◌+ℤ◌, negsuc, MatchOption, ◌<◌, ◌<ℤ◌, ◌≤ℤ◌, IsNone, IsTrue, ◌↔◌, IfSome, List, length, slice_get, Some};
ghost use Rattle.std.specs.Int.{int_max};
ghost use Rattle.std.specs.List.{AllByRecursion};
ghost use Rattle.fz_strength.specs.Cumulatives.{IsSound, IsRoom, HasRoom};
ghost use Rattle.fz_cumulative.specs.Tasks.{IsAt, profile_of, IsConflict};
ghost use Rattle.fz_cumulative.specs.Findings.{IsNegative, IsBlockedAt};

use crate::profile::{conflict, stretch_at};
use crate::tasks::minus;
use fz_strength::open_task::OpenTask;

/// What may be negative.
#[derive(Clone, Copy)]
pub enum Negative {
    /// The bound.
    Bound,
    /// The duration at this place.
    Duration(usize),
    /// The usage at this place.
    Usage(usize),
}

/// The starts of a task, of those that are left, at which it passes the bound with the parts of the others.
#[derive(Clone, Copy)]
pub enum Blocked {
    /// All.
    Everywhere,
    /// Those before a time.
    Before(i32),
    /// Those after a time.
    After(i32),
}

/// What may be negative of tasks and the least of a bound.
pub fn first_negative(tasks: &[OpenTask], low: i32) -> Option<Negative>
    ensures bound { IsNone result → pos 0 ≤ℤ low }
    ensures sound { IsNone result → AllByRecursion IsSound tasks.now }
    ensures some { IfSome result (λ n. IsNegative tasks.now low n) }
{
    if low < 0 {
        return Some(Negative::Bound);
    }
    for place in 0..tasks.len() {
        if tasks[place].duration < 0 {
            return Some(Negative::Duration(place));
        }
        if tasks[place].usage < 0 {
            return Some(Negative::Usage(place));
        }
    }
    None
}

/// Whether each of these is at most a bound.
pub fn are_within(loads: &[i128], bound: i32) -> bool
    ensures { IsTrue result ↔ AllByRecursion (λ load. load ≤ℤ bound) loads.now }
{
    for i in 0..loads.len() {
        if loads[i] > i128::from(bound) {
            return false;
        }
    }
    true
}

/// The greatest of these, 0 where all are negative.
pub fn peak(loads: &[i128]) -> i128
    ensures above { AllByRecursion (λ load. load ≤ℤ result) loads.now }
    ensures positive { pos 0 ≤ℤ result }
    ensures least { (bound : ℤ) → pos 0 ≤ℤ bound
        → AllByRecursion (λ load. load ≤ℤ bound) loads.now → result ≤ℤ bound }
{
    let mut peak = 0;
    for i in 0..loads.len() {
        peak = greater(peak, loads[i]);
    }
    peak
}

/// The greater of two loads.
fn greater(peak: i128, load: i128) -> i128
    ensures peak { peak ≤ℤ result }
    ensures load { load ≤ℤ result }
    ensures greater { result ≡ int_max peak load }
{
    peak.max(load)
}

/// Whether a task stays within a bound with others that use so much.
fn is_small(task: OpenTask, peak: i128, high: i32) -> bool
    ensures { IsTrue result → (peak +ℤ task.usage) ≤ℤ high }
{
    match peak.checked_add(i128::from(task.usage)) {
        Some(load) => load <= i128::from(high),
        None => false,
    }
}

/// Where the task at a place is blocked: nowhere if it fits upon the peak of the profile, nor if it can start at one time only,
/// since what it uses is then in the profile, which is within the bound.
pub fn where_blocked(
    tasks: &[OpenTask],
    loads: &[i128],
    place: usize,
    peak: i128,
    high: i32,
) -> Option<Blocked>
    requires sound { AllByRecursion IsSound tasks.now }
    requires profile { loads.now ≡ profile_of tasks.now }
    requires some { pos 0 ≤ℤ peak }
    requires peak { AllByRecursion (λ load. load ≤ℤ peak) loads.now }
    requires positive { pos 0 ≤ℤ high }
    requires within { AllByRecursion (λ load. load ≤ℤ high) loads.now }
    requires place { place < length tasks.now }
    ensures none { IsNone result → (task : OpenTask)
        → slice_get tasks.now place ≡ Some task → HasRoom tasks.now high place task }
    ensures some { IfSome result (λ b. IsBlockedAt tasks.now high place b) }
{
    let task = tasks[place];
    if task.duration <= 0 {
        return None;
    }
    if task.usage <= 0 {
        return None;
    }
    if task.earliest == task.latest {
        return None;
    }
    if is_small(task, peak, high) {
        return None;
    }
    blocked_at(tasks, loads, place, high)
}

/// Where the task at a place is blocked, which lasts.
fn blocked_at(tasks: &[OpenTask], loads: &[i128], place: usize, high: i32) -> Option<Blocked>
    requires sound { AllByRecursion IsSound tasks.now }
    requires profile { loads.now ≡ profile_of tasks.now }
    requires place { place < length tasks.now }
    requires lasts { IsAt tasks.now place (λ task. pos 0 <ℤ task.duration) }
    ensures none { IsNone result → (task : OpenTask) → slice_get tasks.now place ≡ Some task
        → IsRoom tasks.now high place task task.earliest
        × IsRoom tasks.now high place task task.latest }
    ensures some { IfSome result (λ b. IsBlockedAt tasks.now high place b) }
{
    let task = tasks[place];
    if let Some(time) = conflict(tasks, loads, place, task.earliest, high) {
        return Some(later(tasks, place, time));
    }
    if let Some(time) = conflict(tasks, loads, place, task.latest, high) {
        return Some(earlier(tasks, place, time));
    }
    None
}

/// A time, if it is no later than another.
fn no_later(time: i64, latest: i32) -> Option<i32>
    requires { negsuc 2147483647 ≤ℤ time }
    ensures { MatchOption result (latest <ℤ time) (λ t. (t ≡ time) × (time ≤ℤ latest)) }
{
    if time <= i64::from(latest) {
        Some(time as i32)
    } else {
        None
    }
}

/// A time, if it is no earlier than another.
fn no_earlier(time: i64, earliest: i32) -> Option<i32>
    requires { time ≤ℤ pos 2147483647 }
    ensures { MatchOption result (time <ℤ earliest) (λ t. (t ≡ time) × (earliest ≤ℤ time)) }
{
    if time >= i64::from(earliest) {
        Some(time as i32)
    } else {
        None
    }
}

/// Where a task is blocked that would pass the bound at a time if it began at its earliest start.
fn later(tasks: &[OpenTask], place: usize, time: i32) -> Blocked
    requires sound { AllByRecursion IsSound tasks.now }
    requires place { place < length tasks.now }
    ensures { (bound : ℤ) (task : OpenTask) → slice_get tasks.now place ≡ Some task
        → pos 0 <ℤ task.duration → IsConflict tasks.now bound place task task.earliest time
        → IsBlockedAt tasks.now bound place result }
{
    let until = stretch_at(tasks, place, time).until;
    match no_later(until, tasks[place].latest) {
        Some(first) => Blocked::Before(first),
        None => Blocked::Everywhere,
    }
}

/// Where a task is blocked that would pass the bound at a time if it began at its latest start.
fn earlier(tasks: &[OpenTask], place: usize, time: i32) -> Blocked
    requires sound { AllByRecursion IsSound tasks.now }
    requires place { place < length tasks.now }
    ensures { (bound : ℤ) (task : OpenTask) → slice_get tasks.now place ≡ Some task
        → pos 0 <ℤ task.duration → IsConflict tasks.now bound place task task.latest time
        → IsBlockedAt tasks.now bound place result }
{
    let since = stretch_at(tasks, place, time).since;
    let task = tasks[place];
    match no_earlier(minus(since, task.duration), task.earliest) {
        Some(last) => Blocked::After(last),
        None => Blocked::Everywhere,
    }
}

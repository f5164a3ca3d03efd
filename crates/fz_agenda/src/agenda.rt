//! Which propagators are queued.
ghost use Rattle.std.specs.Prelude.{◌≡◌, ◌↔◌, ℕ, ◌<◌, ◌+◌, ◌*◌, List, [], ◌∷◌, ◌++◌, length, slice_index, slice_index_or, slice_set, replicate, IfOk, IsTrue, OnOk, OnErr, MatchOption};
ghost use Rattle.std.specs.List.{concat};
ghost use Rattle.std.specs.Int.{bit_at};
ghost use Rattle.fz_prop.specs.Stores.{IsListed};
ghost use Rattle.fz_agenda.specs.Queues.{lineup, line_of, IsFirst, AreEmptyBelow, IsAgenda, IsAtRest, class_of, cost_at, IsIdle, IsQueued, without_first, IsGone, AreAwake, IsWoken};

use crate::queue::Queue;
use crate::states::States;
use fz_prop::Cost;
use std::alloc::{AllocError, Global};
use std::marker::Model;

/// For each propagator of a space whether it is idle, queued or gone, and a queue for each class of cost.
#[derive(Drop)]
pub struct Agenda {
    states: States,
    queues: Vec<Queue>,
    /// Nothing is queued in a class below this one.
    lowest: usize,
}

impl Model for Agenda {
    ghost use Rattle.fz_agenda.specs.Queues.{Lineup, lineup, IsAgenda};

    ghost Value = { Lineup };

    ghost view = { λ a. lineup a.states a.queues.items };

    ghost invariant = { λ a. IsAgenda a.states a.queues.items a.lowest };
}

impl Agenda {
    /// An agenda of that many propagators, none of them queued.
    ///
    /// # Errors
    /// `AllocError` where there is no memory.
    pub fn new(alloc: Global, count: usize) -> Result<Agenda, AllocError>
        ensures states { IfOk result (λ a. a.states ≡ replicate count 0) }
        ensures queues { IfOk result (λ a. a.queues ≡ replicate 6 []) }
    {
        let queues = empty_queues(alloc)?;
        let states = States::new(alloc, count)?;
        Ok(Agenda {
            states,
            queues,
            lowest: 0,
        })
    }

    /// The first that is queued, of the cheapest class.
    pub fn next(&mut self) -> Option<u32>
        ensures same { self.new ≡ self.old }
        ensures first { MatchOption result (line_of self.old ≡ []) (λ i. IsFirst self.old i) }
        ensures none { MatchOption result (IsAtRest self.old.states)
            (λ i. slice_index self.old.states i ≡ 1) }
    {
        first_of(&self.queues, &mut self.lowest, &self.states)
    }

    /// Queues a propagator that is idle; one that is queued or gone stays what it is.
    ///
    /// # Errors
    /// `AllocError` where there is no memory; nothing is queued then.
    pub fn wake(&mut self, place: u32, cost: Cost) -> Result<(), AllocError>
        ensures idle { OnOk result
            (IsIdle self.old place → IsQueued (class_of cost) place self.old self.new) }
        ensures other { (IsIdle self.old place → ⊥) → self.new ≡ self.old }
        ensures err { OnErr result (self.new ≡ self.old) }
    {
        if !self.is_idle(place) {
            return Ok(());
        }
        enqueue(
            &mut self.queues,
            &mut self.lowest,
            &mut self.states,
            place,
            class_of(cost),
        )
    }

    /// Queues a propagator that is idle, if it is one of those that are there.
    #[inline(always)]
    pub(crate) fn wake_idle(&mut self, place: u32, cost: Cost) -> Result<(), AllocError>
        requires { place < length self.old.states → slice_index self.old.states place ≡ 0 }
        ensures idle { OnOk result
            (IsIdle self.old place → IsQueued (class_of cost) place self.old self.new) }
        ensures other { (IsIdle self.old place → ⊥) → self.new ≡ self.old }
        ensures err { OnErr result (self.new ≡ self.old) }
    {
        enqueue(
            &mut self.queues,
            &mut self.lowest,
            &mut self.states,
            place,
            class_of(cost),
        )
    }

    /// Whether a propagator is there and idle.
    #[inline(always)]
    pub(crate) fn is_idle(&self, place: u32) -> bool
        ensures { IsTrue result ↔ IsIdle self.now place }
    {
        self.states.is_idle(place as usize)
    }

    /// Those of a word that are idle; what bits beyond the last propagator say is not known.
    pub fn idle_in(&self, word: usize) -> u64
        ensures { (k : ℕ) → k < 64 → word * 64 + k < length self.now.states
            → (bit_at result k ≡ 1) ↔ (slice_index self.now.states (word * 64 + k) ≡ 0) }
    {
        self.states.idle_in(word)
    }

    /// The first has run and is gone.
    #[inline(always)]
    pub fn retire(&mut self, place: u32)
        requires { IsFirst self.old place }
        ensures { IsGone place self.old self.new }
    {
        retire_first(&mut self.queues, &mut self.lowest, &mut self.states, place);
    }

    /// One that is gone is idle again.
    #[inline(always)]
    pub(crate) fn revive(&mut self, place: u32)
        requires { slice_index self.old.states place ≡ 2 }
        ensures { self.new
            ≡ lineup (slice_set self.old.states place 0) self.old.queues }
    {
        self.states.revive(place as usize);
    }

    /// Another agenda that is the same.
    ///
    /// # Errors
    /// `AllocError` where there is no memory.
    pub fn copy(&self) -> Result<Agenda, AllocError>
        ensures { IfOk result (λ a. a ≡ self.now) }
    {
        let states = self.states.copy()?;
        let queues = copies(*self.queues.allocator(), &self.queues)?;
        Ok(Agenda {
            states,
            queues,
            lowest: self.lowest,
        })
    }

    /// Becomes the same as another of as many propagators, and keeps its room.
    ///
    /// # Errors
    /// `AllocError` where there is no memory; what it then has is an agenda, and nothing else is known of it.
    pub fn copy_from(&mut self, other: &Agenda) -> Result<(), AllocError>
        requires { length self.old.states ≡ length other.now.states }
        ensures same { OnOk result (self.new ≡ other.now) }
    {
        if overwrite(&mut self.queues, &other.queues).is_err() {
            clear(&mut self.queues, &mut self.states);
            return Err(AllocError);
        }
        self.states.copy_from(&other.states);
        self.lowest = other.lowest;
        Ok(())
    }

    /// How many propagators there are.
    pub fn len(&self) -> usize
        ensures { result ≡ length self.now.states }
    {
        self.states.len()
    }
}

/// The place of a class among the queues; cheaper ones come first.
#[inline(always)]
fn class_of(cost: Cost) -> usize
    ensures { result ≡ class_of cost }
{
    match cost {
        Cost::Unary => 0,
        Cost::Binary => 1,
        Cost::Ternary => 2,
        Cost::Linear => 3,
        Cost::Quadratic => 4,
        Cost::Cubic => 5,
    }
}

/// A queue for each class.
fn empty_queues(alloc: Global) -> Result<Vec<Queue>, AllocError>
    ensures { IfOk result (λ v. v.items ≡ replicate 6 []) }
{
    let mut queues = Vec::with_capacity(alloc, 6)?;
    for _made in 0..6usize {
        queues.push(Queue::new(alloc))?;
    }
    Ok(queues)
}

/// Copies of queues.
fn copies(alloc: Global, queues: &[Queue]) -> Result<Vec<Queue>, AllocError>
    ensures { IfOk result (λ v. v.items ≡ queues.now) }
{
    let mut copies = Vec::with_capacity(alloc, queues.len())?;
    for queue in queues {
        copies.push(queue.copy(alloc)?)?;
    }
    Ok(copies)
}

/// Writes queues over others.
fn overwrite(queues: &mut Vec<Queue>, others: &[Queue]) -> Result<(), AllocError>
    requires size { length queues.old.items ≡ length others.now }
    ensures same { OnOk result (queues.new.items ≡ others.now) }
    ensures size { length queues.new.items ≡ length queues.old.items }
{
    for (i, other) in others.iter().enumerate() {
        queues[i].copy_from(other)?;
    }
    Ok(())
}

/// Nothing is queued, and all are idle.
fn clear(queues: &mut Vec<Queue>, states: &mut States)
    requires { length queues.old.items ≡ 6 }
    ensures agenda { (lowest : ℕ) → IsAgenda states.new queues.new.items lowest }
    ensures size { length states.new ≡ length states.old }
{
    states.clear();
    clear_queues(queues);
}

/// Nothing stands in a queue.
fn clear_queues(queues: &mut Vec<Queue>)
    ensures size { length queues.new.items ≡ length queues.old.items }
    ensures empty { (k : ℕ) → slice_index_or queues.new.items k [] ≡ [] }
{
    for i in 0..queues.len() {
        queues[i].clear();
    }
}

/// The first that is queued, of the cheapest class.
#[inline(always)]
fn first_of(queues: &[Queue], lowest: &mut usize, states: &States) -> Option<u32>
    requires agenda { IsAgenda states.now queues.now lowest.old }
    ensures agenda { IsAgenda states.now queues.now lowest.new }
    ensures first { MatchOption result (concat queues.now ≡ [])
        (λ i. IsFirst (lineup states.now queues.now) i) }
    ensures none { MatchOption result (IsAtRest states.now)
        (λ i. slice_index states.now i ≡ 1) }
{
    *lowest = lowest_from(queues, *lowest);
    match queues.get(*lowest) {
        Some(queue) => queue.first(),
        None => None,
    }
}

/// The first class from one on in which any is queued, or the number of classes.
#[inline(always)]
fn lowest_from(queues: &[Queue], lowest: usize) -> usize
    requires { AreEmptyBelow queues.now lowest }
    ensures below { AreEmptyBelow queues.now result }
    ensures here { result < length queues.now → slice_index_or queues.now result [] ≡ [] → ⊥ }
{
    for class in lowest..queues.len() {
        if queues[class].first().is_some() {
            return class;
        }
    }
    queues.len().max(lowest)
}

/// Queues a propagator that is idle where it is there.
#[inline(always)]
fn enqueue(
    queues: &mut Vec<Queue>,
    lowest: &mut usize,
    states: &mut States,
    place: u32,
    class: usize,
) -> Result<(), AllocError>
    requires class { class < 6 }
    requires idle { place < length states.old → slice_index states.old place ≡ 0 }
    requires agenda { IsAgenda states.old queues.old.items lowest.old }
    ensures agenda { IsAgenda states.new queues.new.items lowest.new }
    ensures idle { OnOk result (IsIdle (lineup states.old queues.old.items) place
        → IsQueued class place (lineup states.old queues.old.items)
        (lineup states.new queues.new.items)) }
    ensures other { (IsIdle (lineup states.old queues.old.items) place → ⊥)
        → lineup states.new queues.new.items ≡ lineup states.old queues.old.items }
    ensures err { OnErr result
        (lineup states.new queues.new.items ≡ lineup states.old queues.old.items) }
{
    if place as usize >= states.len() {
        return Ok(());
    }
    queues[class].push(place)?;
    *lowest = (*lowest).min(class);
    states.queue(place as usize);
    Ok(())
}

/// The first has run and is gone: it leaves its queue.
#[inline(always)]
fn retire_first(queues: &mut Vec<Queue>, lowest: &mut usize, states: &mut States, place: u32)
    requires first { IsFirst (lineup states.old queues.old.items) place }
    requires agenda { IsAgenda states.old queues.old.items lowest.old }
    ensures agenda { IsAgenda states.new queues.new.items lowest.new }
    ensures gone { IsGone place (lineup states.old queues.old.items)
        (lineup states.new queues.new.items) }
{
    *lowest = pop_first(queues, *lowest);
    states.retire(place as usize);
}

/// The first of the cheapest class leaves; that class.
#[inline(always)]
fn pop_first(queues: &mut Vec<Queue>, lowest: usize) -> usize
    requires { AreEmptyBelow queues.old.items lowest }
    ensures queues { queues.new.items ≡ without_first queues.old.items }
    ensures below { AreEmptyBelow queues.new.items result }
{
    let class = lowest_from(queues, lowest);
    if class < queues.len() {
        queues[class].pop();
    }
    class
}

//! Who waits for which change.
ghost use Rattle.std.specs.Prelude.{◌≡◌, ◌⊎◌, ◌↔◌, ℕ, ◌<◌, ◌≤◌, List, [], ◌∷◌, ◌++◌, length, replicate, slice_index_or, false, IsTrue, IfOk, OnOk, OnErr};
ghost use Rattle.std.specs.List.{concat};
ghost use Rattle.fz_strength.specs.declared.event.Event.{Event};
ghost use Rattle.fz_strength.specs.declared.event.Event.TheVariants.{Any, Bound, Fixed};
ghost use Rattle.fz_prop.specs.Stores.{IsListed};
ghost use Rattle.fz_agenda.specs.Queues.{cost_at, AreAwake, IsWoken};
ghost use Rattle.fz_agenda.specs.Wakes.{Waking, waiting_at, watches_at, with_cost, with_watch, HaveSize, HasVariable, Extends, Heeds, WaitsFor, AllAwake, AreWatchesOf, AreWatchersAwake};

use crate::agenda::Agenda;
use crate::members::Members;
use crate::watches::{Watch, Watchers, wake_watching};
use fz_bits::word::{common, lowest_bit, without_bit};
use fz_prop::{Cost, Event, Store};
use std::alloc::{AllocError, Global};
use std::marker::Model;

/// Those that wait for one change, 64 to a word: propagators that come in one after another share words.
#[derive(Drop)]
pub struct Waiters {
    words: Vec<Members>,
}

impl Model for Waiters {
    ghost use Rattle.std.specs.Prelude.{List, ℕ};
    ghost use Rattle.std.specs.List.{concat};

    ghost Value = { List ℕ };

    ghost view = { λ w. concat w.words.items };
}

impl Waiters {
    fn new(alloc: Global) -> Waiters
        ensures { result ≡ [] }
    {
        Waiters {
            words: Vec::new(alloc),
        }
    }

    fn words(&self) -> &[Members]
        ensures { concat result.now ≡ self.now }
    {
        &self.words
    }

    /// One more waits.
    fn add(&mut self, place: u32) -> Result<(), AllocError>
        ensures ok { OnOk result
            ((i : ℕ) → IsListed self.new i ↔ (IsListed self.old i ⊎ (i ≡ place))) }
        ensures err { OnErr result (self.new ≡ self.old) }
    {
        if join_last(&mut self.words, place) {
            return Ok(());
        }
        self.words.push(Members::one(place))?;
        Ok(())
    }
}

/// Puts a propagator into the last word, where it belongs there; whether it does.
fn join_last(words: &mut Vec<Members>, place: u32) -> bool
    ensures joined { IsTrue result → (i : ℕ) → IsListed (concat words.new.items) i
        ↔ (IsListed (concat words.old.items) i ⊎ (i ≡ place)) }
    ensures other { result ≡ false → words.new.items ≡ words.old.items }
{
    match words.len() {
        0 => false,
        count => words[count - 1].join(place),
    }
}

/// For each kind of change and each variable the propagators that wait for it.
#[derive(Drop)]
pub struct Wakes {
    any: Vec<Waiters>,
    bound: Vec<Waiters>,
    fixed: Vec<Waiters>,
    /// For each variable those that look at it only for a while.
    watches: Vec<Watchers>,
    /// The class of each propagator's cost.
    costs: Vec<Cost>,
}

impl Model for Wakes {
    ghost use Rattle.fz_agenda.specs.Wakes.{Waking};

    ghost Value = { Waking };

    ghost view = { λ w. record {
      any = w.any.items;
      bound = w.bound.items;
      fixed = w.fixed.items;
      watches = w.watches.items;
      costs = w.costs.items;
    } };
}

impl Wakes {
    /// Lists for that many variables, in which nothing stands.
    ///
    /// # Errors
    /// `AllocError` where there is no memory.
    pub fn new(alloc: Global, count: usize) -> Result<Wakes, AllocError>
        ensures size { IfOk result (λ w. HaveSize w count) }
        ensures costs { IfOk result (λ w. w.costs ≡ []) }
    {
        let any = empty_lists(alloc, count)?;
        let bound = empty_lists(alloc, count)?;
        let fixed = empty_lists(alloc, count)?;
        let watches = no_watchers(alloc, count)?;
        Ok(Wakes {
            any,
            bound,
            fixed,
            watches,
            costs: Vec::new(alloc),
        })
    }

    /// The class of each propagator's cost.
    pub fn costs(&self) -> &[Cost]
        ensures { result.now ≡ self.now.costs }
    {
        &self.costs
    }

    /// The class of the next propagator's cost.
    ///
    /// # Errors
    /// `AllocError` where there is no memory; the lists are then as they were.
    pub fn add_cost(&mut self, cost: Cost) -> Result<(), AllocError>
        ensures ok { OnOk result (self.new ≡ with_cost self.old cost) }
        ensures err { OnErr result (self.new ≡ self.old) }
    {
        match self.costs.push(cost) {
            Ok(()) => Ok(()),
            Err(_) => Err(AllocError),
        }
    }

    /// A propagator waits for a change of a variable.
    ///
    /// # Errors
    /// `AllocError` where there is no memory.
    pub fn list(&mut self, variable: u32, event: Event, place: u32) -> Result<(), AllocError>
        requires { HasVariable self.old variable }
        ensures size { (n : ℕ) → HaveSize self.old n → HaveSize self.new n }
        ensures extends { Extends self.old self.new }
        ensures listed { OnOk result (IsListed (waiting_at self.new event variable) place) }
        ensures only { (e : Event) (v i : ℕ) → IsListed (waiting_at self.new e v) i
            → IsListed (waiting_at self.old e v) i ⊎ ((e ≡ event) × (v ≡ variable) × (i ≡ place)) }
        ensures costs { self.new.costs ≡ self.old.costs }
        ensures watches { self.new.watches ≡ self.old.watches }
    {
        match event {
            Event::Any => list_at(&mut self.any, variable, place),
            Event::Bound => list_at(&mut self.bound, variable, place),
            Event::Fixed => list_at(&mut self.fixed, variable, place),
        }
    }

    /// A propagator looks at a variable while a number is left of a term, or once it is gone, and any change of the variable then wakes it.
    ///
    /// # Errors
    /// `AllocError` where there is no memory; the lists are then as they were.
    pub fn watch(&mut self, variable: u32, watch: Watch) -> Result<(), AllocError>
        requires { HasVariable self.old variable }
        ensures ok { OnOk result (self.new ≡ with_watch self.old variable watch) }
        ensures err { OnErr result (self.new ≡ self.old) }
    {
        self.watches[variable as usize].add(watch)
    }

    /// Queues those that wait for the changes of a variable up to a level, or look at it now.
    ///
    /// # Errors
    /// `AllocError` where there is no memory.
    #[inline(always)]
    pub fn wake(
        &self,
        variable: u32,
        level: u8,
        store: &Store,
        agenda: &mut Agenda,
    ) -> Result<(), AllocError>
        requires variable { HasVariable self.now variable }
        requires terms { AreWatchesOf (length store.now.doms) (watches_at self.now variable) }
        ensures woken { IsWoken (Heeds self.now store.now.doms variable level) self.now.costs
            agenda.old agenda.new }
        ensures awake { OnOk result (AllAwake self.now variable level agenda.new.states) }
        ensures watching { OnOk result (1 ≤ level → AreWatchersAwake store.now.doms
            agenda.new.states (watches_at self.now variable)) }
    {
        if level == 0 {
            return Ok(());
        }
        let watches = self.watches[variable as usize].watches();
        wake_watching(watches, store, &self.costs, agenda)?;
        self.wake_waiting(variable, level, agenda)
    }

    /// Queues those that wait for the changes of a variable up to a level.
    #[inline(always)]
    fn wake_waiting(&self, variable: u32, level: u8, agenda: &mut Agenda) -> Result<(), AllocError>
        requires variable { HasVariable self.now variable }
        requires some { 1 ≤ level }
        ensures woken { IsWoken (WaitsFor self.now variable level) self.now.costs
            agenda.old agenda.new }
        ensures awake { OnOk result (AllAwake self.now variable level agenda.new.states) }
    {
        match level {
            1 => self.wake_any(variable, agenda),
            2 => self.wake_bound(variable, agenda),
            _ => self.wake_fixed(variable, agenda),
        }
    }

    #[inline(always)]
    fn wake_any(&self, variable: u32, agenda: &mut Agenda) -> Result<(), AllocError>
        requires { HasVariable self.now variable }
        ensures woken { IsWoken (WaitsFor self.now variable 1) self.now.costs
            agenda.old agenda.new }
        ensures any { OnOk result
            (AreAwake agenda.new.states (waiting_at self.now Any variable)) }
    {
        wake_listed(&self.any, variable, &self.costs, agenda)
    }

    #[inline(always)]
    fn wake_bound(&self, variable: u32, agenda: &mut Agenda) -> Result<(), AllocError>
        requires { HasVariable self.now variable }
        ensures woken { IsWoken (WaitsFor self.now variable 2) self.now.costs
            agenda.old agenda.new }
        ensures any { OnOk result
            (AreAwake agenda.new.states (waiting_at self.now Any variable)) }
        ensures bound { OnOk result
            (AreAwake agenda.new.states (waiting_at self.now Bound variable)) }
    {
        self.wake_any(variable, agenda)?;
        wake_listed(&self.bound, variable, &self.costs, agenda)
    }

    #[inline(always)]
    fn wake_fixed(&self, variable: u32, agenda: &mut Agenda) -> Result<(), AllocError>
        requires { HasVariable self.now variable }
        ensures woken { IsWoken (WaitsFor self.now variable 3) self.now.costs
            agenda.old agenda.new }
        ensures any { OnOk result
            (AreAwake agenda.new.states (waiting_at self.now Any variable)) }
        ensures bound { OnOk result
            (AreAwake agenda.new.states (waiting_at self.now Bound variable)) }
        ensures fixed { OnOk result
            (AreAwake agenda.new.states (waiting_at self.now Fixed variable)) }
    {
        self.wake_bound(variable, agenda)?;
        wake_listed(&self.fixed, variable, &self.costs, agenda)
    }
}

/// Lists for that many variables, in which nothing stands.
fn empty_lists(alloc: Global, count: usize) -> Result<Vec<Waiters>, AllocError>
    ensures { IfOk result (λ v. length v.items ≡ count) }
{
    let mut lists = Vec::with_capacity(alloc, count)?;
    for _made in 0..count {
        lists.push(Waiters::new(alloc))?;
    }
    Ok(lists)
}

/// Lists for that many variables, of none that looks at one for a while.
fn no_watchers(alloc: Global, count: usize) -> Result<Vec<Watchers>, AllocError>
    ensures { IfOk result (λ v. v.items ≡ replicate count []) }
{
    let mut lists = Vec::with_capacity(alloc, count)?;
    for _made in 0..count {
        lists.push(Watchers::new(alloc))?;
    }
    Ok(lists)
}

/// A propagator waits for a change of a variable.
fn list_at(lists: &mut Vec<Waiters>, variable: u32, place: u32) -> Result<(), AllocError>
    requires { variable < length lists.old.items }
    ensures size { length lists.new.items ≡ length lists.old.items }
    ensures extends { (v i : ℕ) → IsListed (slice_index_or lists.old.items v []) i
        → IsListed (slice_index_or lists.new.items v []) i }
    ensures listed { OnOk result (IsListed (slice_index_or lists.new.items variable []) place) }
    ensures only { (v i : ℕ) → IsListed (slice_index_or lists.new.items v []) i
        → IsListed (slice_index_or lists.old.items v []) i ⊎ ((v ≡ variable) × (i ≡ place)) }
{
    lists[variable as usize].add(place)
}

/// Queues those that wait for a change of a variable and are idle.
#[inline(always)]
fn wake_listed(
    lists: &[Waiters],
    variable: u32,
    costs: &[Cost],
    agenda: &mut Agenda,
) -> Result<(), AllocError>
    requires { variable < length lists.now }
    ensures woken { IsWoken (IsListed (slice_index_or lists.now variable [])) costs.now
        agenda.old agenda.new }
    ensures awake { OnOk result
        (AreAwake agenda.new.states (slice_index_or lists.now variable [])) }
{
    wake_words(lists[variable as usize].words(), costs, agenda)
}

/// Queues those of some words that are idle.
#[inline(always)]
fn wake_words(words: &[Members], costs: &[Cost], agenda: &mut Agenda) -> Result<(), AllocError>
    ensures woken { IsWoken (IsListed (concat words.now)) costs.now agenda.old agenda.new }
    ensures awake { OnOk result (AreAwake agenda.new.states (concat words.now)) }
{
    for members in words {
        wake_members(members, costs, agenda)?;
    }
    Ok(())
}

/// Queues those of a word that are idle.
#[inline(always)]
fn wake_members(members: &Members, costs: &[Cost], agenda: &mut Agenda) -> Result<(), AllocError>
    ensures woken { IsWoken (IsListed members.now) costs.now agenda.old agenda.new }
    ensures awake { OnOk result (AreAwake agenda.new.states members.now) }
{
    let chunk = members.chunk();
    let mut left = common(chunk.bits, agenda.idle_in(chunk.word));
    'places: while left != 0 {
        let bit = lowest_bit(left);
        let place = chunk.word as u32 * 64 + bit;
        agenda.wake_idle(place, cost_at(costs, place))?;
        left = without_bit(left, bit);
    }
    Ok(())
}

/// The class of a propagator's cost.
#[inline(always)]
pub(crate) fn cost_at(costs: &[Cost], place: u32) -> Cost
    ensures { result ≡ cost_at costs.now place }
{
    match costs.get(place as usize) {
        Some(cost) => *cost,
        None => Cost::Cubic,
    }
}

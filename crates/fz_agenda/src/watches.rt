//! Who looks at a variable only for a while.
ghost use Rattle.std.specs.Prelude.{◌≡◌, ◌<◌, ◌↔◌, ◌++◌, ◌∷◌, [], length, slice_index, IsTrue, OnOk, OnErr};
ghost use Rattle.fz_strength.specs.Domains.{IsTermOf};
ghost use Rattle.fz_agenda.specs.Queues.{IsWoken};
ghost use Rattle.fz_agenda.specs.Wakes.{AreWatchersAwake, AreWatchesOf, IsWatching};
ghost use Rattle.fz_agenda.specs.Watches.{IsSeen};

use crate::agenda::Agenda;
use crate::wakes::cost_at;
use fz_prop::terms::has;
use fz_prop::{Cost, Store};
use fz_spec::term::Term;
use std::alloc::{AllocError, Global};
use std::marker::Model;

/// A propagator that looks at some variable only for a while: an element at a term of its list while the term's place is left of the
/// index, or what says whether a variable is a number once this is gone.
#[derive(Clone, Copy)]
pub struct Watch {
    pub place: u32,
    pub term: Term,
    pub number: i32,
    /// It looks while the number is left of the term; else once it is gone.
    pub while_left: bool,
}

/// Those that look at one variable for a while.
#[derive(Drop)]
pub struct Watchers {
    watches: Vec<Watch>,
}

impl Model for Watchers {
    ghost use Rattle.std.specs.Prelude.{List};
    ghost use Rattle.fz_agenda.specs.declared.watches.Watch.{Watch};

    ghost Value = { List Watch };

    ghost view = { λ w. w.watches.items };
}

impl Watchers {
    pub fn new(alloc: Global) -> Watchers
        ensures { result ≡ [] }
    {
        Watchers {
            watches: Vec::new(alloc),
        }
    }

    pub fn watches(&self) -> &[Watch]
        ensures { result.now ≡ self.now }
    {
        &self.watches
    }

    /// One more looks at the variable.
    ///
    /// # Errors
    /// `AllocError` where there is no memory; the others are then as they were.
    pub fn add(&mut self, watch: Watch) -> Result<(), AllocError>
        ensures ok { OnOk result (self.new ≡ self.old ++ watch ∷ []) }
        ensures err { OnErr result (self.new ≡ self.old) }
    {
        self.watches.push(watch)?;
        Ok(())
    }
}

/// Queues those that look at a variable now and are idle.
///
/// # Errors
/// `AllocError` where there is no memory.
pub fn wake_watching(
    watches: &[Watch],
    store: &Store,
    costs: &[Cost],
    agenda: &mut Agenda,
) -> Result<(), AllocError>
    requires { AreWatchesOf (length store.now.doms) watches.now }
    ensures woken { IsWoken (IsWatching store.now.doms watches.now) costs.now
        agenda.old agenda.new }
    ensures awake { OnOk result
        (AreWatchersAwake store.now.doms agenda.new.states watches.now) }
{
    for watch in watches {
        wake_watcher(watch, store, costs, agenda)?;
    }
    Ok(())
}

/// Queues one where it looks now and is idle.
fn wake_watcher(
    watch: &Watch,
    store: &Store,
    costs: &[Cost],
    agenda: &mut Agenda,
) -> Result<(), AllocError>
    requires { IsTermOf (length store.now.doms) watch.now.term }
    ensures woken { IsWoken (λ i. (watch.now.place ≡ i) × IsSeen
        watch.now.while_left store.now.doms watch.now.term watch.now.number) costs.now
        agenda.old agenda.new }
    ensures awake { OnOk result (IsSeen
        watch.now.while_left store.now.doms watch.now.term watch.now.number
        → watch.now.place < length agenda.new.states
        → slice_index agenda.new.states watch.now.place ≡ 0 → ⊥) }
{
    if agenda.is_idle(watch.place) && looks_now(watch, store) {
        agenda.wake_idle(watch.place, cost_at(costs, watch.place))?;
    }
    Ok(())
}

/// Whether it looks now.
fn looks_now(watch: &Watch, store: &Store) -> bool
    requires { IsTermOf (length store.now.doms) watch.now.term }
    ensures { IsTrue result ↔ IsSeen
        watch.now.while_left store.now.doms watch.now.term watch.now.number }
{
    has(store, watch.term, watch.number) == watch.while_left
}

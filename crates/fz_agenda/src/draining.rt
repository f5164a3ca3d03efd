//! Waking those that wait for the changes of a store.
ghost use Rattle.std.specs.Prelude.{◌≡◌, List, length, slice_index, OnOk};
ghost use Rattle.fz_agenda.specs.Queues.{IsFirst};
ghost use Rattle.fz_agenda.specs.Wakes.{HaveSize, IsDraining, IsDrainingBut, IsDrained};

use crate::agenda::Agenda;
use crate::wakes::Wakes;
use fz_prop::Store;
use std::alloc::AllocError;

/// The first has run, and its line holds of the store: it is idle. Queues the others that wait for the changes that the store
/// lists, and takes the changes from the list.
///
/// # Errors
/// `AllocError` where there is no memory; a change is taken only once all others that wait for it are queued.
#[inline(always)]
pub fn drain_but(
    wakes: &Wakes,
    place: u32,
    store: &mut Store,
    agenda: &mut Agenda,
) -> Result<(), AllocError>
    requires first { IsFirst agenda.old place }
    requires queued { slice_index agenda.old.states place ≡ 1 }
    requires size { HaveSize wakes.now (length store.old.doms) }
    ensures draining { IsDrainingBut place wakes.now store.old agenda.old store.new agenda.new }
    ensures drained { OnOk result (IsDrained store.new) }
{
    // One that is gone is not woken.
    agenda.retire(place);
    let drained = drain(wakes, store, agenda);
    agenda.revive(place);
    drained
}

/// Queues those that wait for the changes that a store lists, and takes the changes from the list.
///
/// # Errors
/// `AllocError` where there is no memory; a change is taken only once all that wait for it are queued.
#[inline(always)]
pub fn drain(wakes: &Wakes, store: &mut Store, agenda: &mut Agenda) -> Result<(), AllocError>
    requires { HaveSize wakes.now (length store.old.doms) }
    ensures draining { IsDraining wakes.now store.old agenda.old store.new agenda.new }
    ensures drained { OnOk result (IsDrained store.new) }
{
    let _ = store.doms();
    'changes: while let Some(variable) = store.first_changed() {
        wakes.wake(variable, store.mark(variable), store, agenda)?;
        store.take_changed();
        let _ = store.doms();
    }
    Ok(())
}

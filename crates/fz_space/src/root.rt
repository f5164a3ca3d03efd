//! The parts of the space of a root.
ghost use Rattle.std.specs.Prelude.{◌≡◌, None, [], false, IfOk};
ghost use Rattle.fz_prop.specs.Told.{AreTold};
ghost use Rattle.fz_prop.specs.Stores.{HasEmpty, declared_sets, fresh};
ghost use Rattle.fz_engine.specs.Runs.{IsAlive};
ghost use Rattle.fz_search_space.specs.Spaces.{Covers};
ghost use Rattle.fz_space.specs.Alive.{spaced};

use fz_agenda::Agenda;
use fz_engine::Network;
use fz_prop::{Kept, Store};
use std::alloc::{AllocError, Global};

/// The store and the agenda of a space, what its propagators keep, and whether it has failed.
#[derive(Drop)]
pub struct Parts {
    pub store: Store,
    pub agenda: Agenda,
    pub kept: Vec<Kept>,
    pub failed: bool,
}

/// The parts of the space of a root: all domains as they are declared, and all propagators queued; it has failed where a variable
/// is declared with the empty set.
///
/// # Errors
/// `AllocError` where there is no memory.
pub fn parts_of(alloc: Global, network: &Network) -> Result<Parts, AllocError>
    ensures alive { IfOk result
        (λ p. p.failed ≡ false → IsAlive network.now p.agenda.states p.store) }
    ensures told { IfOk result (λ p. AreTold network.now.sayings p.kept.items p.store.doms) }
    ensures covers { IfOk result (λ p. Covers None [] (spaced network.now.model p.store p.failed)) }
{
    match Store::new(alloc, network.model())? {
        None => failed_parts(alloc, network),
        Some(store) => live_parts(alloc, network, store),
    }
}

/// The parts of a space that has failed.
fn failed_parts(alloc: Global, network: &Network) -> Result<Parts, AllocError>
    requires { HasEmpty (declared_sets network.now.model.variables) }
    ensures alive { IfOk result
        (λ p. p.failed ≡ false → IsAlive network.now p.agenda.states p.store) }
    ensures told { IfOk result (λ p. AreTold network.now.sayings p.kept.items p.store.doms) }
    ensures covers { IfOk result (λ p. Covers None [] (spaced network.now.model p.store p.failed)) }
{
    let _ = network.model();
    let agenda = Agenda::new(alloc, 0)?;
    let kept = network.cells(alloc)?;
    Ok(Parts {
        store: Store::empty(alloc),
        agenda,
        kept,
        failed: true,
    })
}

/// The parts of a space with these domains.
fn live_parts(alloc: Global, network: &Network, store: Store) -> Result<Parts, AllocError>
    requires { store ≡ fresh (declared_sets network.now.model.variables) }
    ensures alive { IfOk result
        (λ p. p.failed ≡ false → IsAlive network.now p.agenda.states p.store) }
    ensures told { IfOk result (λ p. AreTold network.now.sayings p.kept.items p.store.doms) }
    ensures covers { IfOk result (λ p. Covers None [] (spaced network.now.model p.store p.failed)) }
{
    let _ = network.model();
    let agenda = network.agenda(alloc)?;
    let kept = network.cells(alloc)?;
    Ok(Parts {
        store,
        agenda,
        kept,
        failed: false,
    })
}

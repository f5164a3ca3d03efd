//! Running propagators until all rest.
ghost use Rattle.std.specs.Prelude.{◌≡◌, ◌⊎◌, ℕ, ◌<◌, true, false, IfOk, slice_index, slice_index_or};
ghost use Rattle.fz_strength.specs.Domains.{room};
ghost use Rattle.fz_prop.specs.Told.{nothing, owned, AreTold};
ghost use Rattle.fz_agenda.specs.Queues.{IsFirst};
ghost use Rattle.fz_agenda.specs.Wakes.{IsDrained};
ghost use Rattle.fz_engine.specs.Runs.{IsAlive, IsRun, AreNeverTrue, AllRest};
ghost use Rattle.fz_engine.specs.Steps.{IsAnswerAt, IsAdvance, IsProgress};

use crate::network::Network;
use fz_agenda::{Agenda, drain, drain_but};
use fz_prop::{Answer, Kept, Propagator, Store};
use std::alloc::AllocError;

/// What a step did.
#[derive(Clone, Copy)]
pub enum Progress {
    /// All propagators rest.
    Rested,
    /// One of them failed.
    Failed,
    /// One of them ran.
    Going,
}

/// Runs propagators until all rest; false where one fails.
///
/// # Errors
/// `AllocError` where there is no memory; what ran is kept, and no assignment is lost.
pub fn settle(
    network: &Network,
    store: &mut Store,
    kept: &mut [Kept],
    agenda: &mut Agenda,
) -> Result<bool, AllocError>
    requires alive { IsAlive network.now agenda.old.states store.old }
    requires told { AreTold network.now.sayings kept.old store.old.doms }
    ensures run { IsRun network.now store.old store.new agenda.new.states }
    ensures told { AreTold network.now.sayings kept.new store.new.doms }
    ensures rests { IfOk result
        (λ b. b ≡ true → AllRest network.now.model store.new.doms) }
    ensures failed { IfOk result
        (λ b. b ≡ false → AreNeverTrue network.now.model.constraints store.old.doms) }
{
    let _ = store.doms();
    drain(network.wakes(), store, agenda)?;
    run_all(network, store, kept, agenda)
}

/// Runs the next propagator, once those are woken that wait for a change that the store lists.
///
/// # Errors
/// `AllocError` where there is no memory; what ran is kept, and no assignment is lost.
pub fn advance(
    network: &Network,
    store: &mut Store,
    kept: &mut [Kept],
    agenda: &mut Agenda,
) -> Result<Progress, AllocError>
    requires alive { IsAlive network.now agenda.old.states store.old }
    requires told { AreTold network.now.sayings kept.old store.old.doms }
    ensures run { IsRun network.now store.old store.new agenda.new.states }
    ensures told { AreTold network.now.sayings kept.new store.new.doms }
    ensures progress { IfOk result (λ p. IsAdvance p network.now.model
        store.old agenda.old.states store.new agenda.new.states) }
{
    let _ = store.doms();
    drain(network.wakes(), store, agenda)?;
    step(network, store, kept, agenda)
}

/// Runs propagators until all rest, from a store that lists no change.
fn run_all(
    network: &Network,
    store: &mut Store,
    kept: &mut [Kept],
    agenda: &mut Agenda,
) -> Result<bool, AllocError>
    requires alive { IsAlive network.now agenda.old.states store.old }
    requires told { AreTold network.now.sayings kept.old store.old.doms }
    requires drained { IsDrained store.old }
    ensures run { IsRun network.now store.old store.new agenda.new.states }
    ensures told { AreTold network.now.sayings kept.new store.new.doms }
    ensures rests { IfOk result
        (λ b. b ≡ true → AllRest network.now.model store.new.doms) }
    ensures failed { IfOk result
        (λ b. b ≡ false → AreNeverTrue network.now.model.constraints store.old.doms) }
{
    let _ = store.doms();
    'steps: loop {
        let progress = step(network, store, kept, agenda)?;
        match progress {
            Progress::Rested => return Ok(true),
            Progress::Failed => return Ok(false),
            Progress::Going => {}
        }
    }
}

/// Runs the next propagator, and wakes those that wait for its changes.
fn step(
    network: &Network,
    store: &mut Store,
    kept: &mut [Kept],
    agenda: &mut Agenda,
) -> Result<Progress, AllocError>
    requires alive { IsAlive network.now agenda.old.states store.old }
    requires told { AreTold network.now.sayings kept.old store.old.doms }
    requires drained { IsDrained store.old }
    ensures run { IsRun network.now store.old store.new agenda.new.states }
    ensures told { AreTold network.now.sayings kept.new store.new.doms }
    ensures progress { IfOk result (λ p. IsProgress p network.now.model
        store.old agenda.old.states store.new agenda.new.states) }
{
    let _ = store.doms();
    let _ = network.wakes();
    match agenda.next() {
        None => Ok(Progress::Rested),
        Some(place) => run_next(network, place, store, kept, agenda),
    }
}

/// Runs a propagator that is queued, and wakes those that wait for its changes; the propagator itself only where it is to run
/// again.
fn run_next(
    network: &Network,
    place: u32,
    store: &mut Store,
    kept: &mut [Kept],
    agenda: &mut Agenda,
) -> Result<Progress, AllocError>
    requires first { IsFirst agenda.old place }
    requires queued { slice_index agenda.old.states place ≡ 1 }
    requires alive { IsAlive network.now agenda.old.states store.old }
    requires told { AreTold network.now.sayings kept.old store.old.doms }
    requires drained { IsDrained store.old }
    ensures run { IsRun network.now store.old store.new agenda.new.states }
    ensures told { AreTold network.now.sayings kept.new store.new.doms }
    ensures progress { IfOk result (λ p. IsProgress p network.now.model
        store.old agenda.old.states store.new agenda.new.states) }
{
    match run(network, place, store, kept, agenda)? {
        Answer::Fix => {
            drain_but(network.wakes(), place, store, agenda)?;
            Ok(Progress::Going)
        }
        Answer::NoFix => {
            drain(network.wakes(), store, agenda)?;
            Ok(Progress::Going)
        }
        Answer::Subsumed => {
            agenda.retire(place);
            drain(network.wakes(), store, agenda)?;
            Ok(Progress::Going)
        }
        Answer::Failed => Ok(Progress::Failed),
    }
}

/// Runs a propagator that is queued, and stays so.
fn run(
    network: &Network,
    place: u32,
    store: &mut Store,
    kept: &mut [Kept],
    agenda: &Agenda,
) -> Result<Answer, AllocError>
    requires queued { slice_index agenda.now.states place ≡ 1 }
    requires alive { IsAlive network.now agenda.now.states store.old }
    requires told { AreTold network.now.sayings kept.old store.old.doms }
    ensures run { IsRun network.now store.old store.new agenda.now.states }
    ensures told { AreTold network.now.sayings kept.new store.new.doms }
    ensures falls { (store.new ≡ store.old) ⊎ (room store.new.doms < room store.old.doms) }
    ensures answer { IfOk result (λ r. IsAnswerAt r network.now place store.old store.new) }
{
    if !has_cell(network, place, kept) {
        return run_plain(network, place, store, agenda);
    }
    run_kept(network, place, store, kept, agenda)
}

/// Whether the propagator at a place has a cell.
fn has_cell(network: &Network, place: u32, kept: &[Kept]) -> bool {
    !kept.is_empty() && (network.slot(place) as usize) < kept.len()
}

/// Runs the propagator at a place, which keeps nothing.
fn run_plain(
    network: &Network,
    place: u32,
    store: &mut Store,
    agenda: &Agenda,
) -> Result<Answer, AllocError>
    requires queued { slice_index agenda.now.states place ≡ 1 }
    requires alive { IsAlive network.now agenda.now.states store.old }
    ensures run { IsRun network.now store.old store.new agenda.now.states }
    ensures falls { (store.new ≡ store.old) ⊎ (room store.new.doms < room store.old.doms) }
    ensures answer { IfOk result (λ r. IsAnswerAt r network.now place store.old store.new) }
{
    let _ = network.wakes();
    let answer = network.propagator(place).propagate(store);
    let _ = store.doms();
    answer
}

/// Runs the propagator at a place, which finds in its cell what it kept.
fn run_kept(
    network: &Network,
    place: u32,
    store: &mut Store,
    kept: &mut [Kept],
    agenda: &Agenda,
) -> Result<Answer, AllocError>
    requires queued { slice_index agenda.now.states place ≡ 1 }
    requires alive { IsAlive network.now agenda.now.states store.old }
    requires told { AreTold network.now.sayings kept.old store.old.doms }
    ensures run { IsRun network.now store.old store.new agenda.now.states }
    ensures told { AreTold network.now.sayings kept.new store.new.doms }
    ensures falls { (store.new ≡ store.old) ⊎ (room store.new.doms < room store.old.doms) }
    ensures answer { IfOk result (λ r. IsAnswerAt r network.now place store.old store.new) }
{
    let _ = network.wakes();
    let slot = network.slot(place);
    let mut own = own_at(kept, slot, place);
    let answer = network.propagator(place).run(store, &mut own);
    let _ = store.doms();
    keep_at(kept, slot, place, own);
    answer
}

/// What the propagator at a place finds in a cell: nothing where that is another's.
fn own_at(kept: &[Kept], slot: u32, place: u32) -> Kept
    ensures { (result ≡ nothing)
        ⊎ ((result.owner ≡ place) × (result ≡ slice_index_or kept.now slot nothing)) }
{
    match kept.get(slot as usize) {
        Some(own) if own.owner == place => *own,
        _ => Kept::none(),
    }
}

/// Puts what the propagator at a place keeps into a cell, where that is there.
fn keep_at(kept: &mut [Kept], slot: u32, place: u32, own: Kept)
    ensures { (k : ℕ)
        → (slice_index_or kept.new k nothing ≡ slice_index_or kept.old k nothing)
        ⊎ (slice_index_or kept.new k nothing ≡ owned place own) }
{
    if (slot as usize) < kept.len() {
        kept[slot as usize] = own.owned(place);
    }
}

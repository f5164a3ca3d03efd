//! One propagator of a space.
ghost use Rattle.std.specs.Prelude.{◌≡◌, ℕ, ℤ, List, Option, true, false, IfOk, OnOk};
ghost use Rattle.fz_prop.specs.Told.{AreTold};
ghost use Rattle.fz_tree.specs.declared.decision.Decision.{Decision};
ghost use Rattle.fz_engine.specs.Runs.{IsAlive};
ghost use Rattle.fz_search_space.specs.Spaces.{Covers, IsNarrower};
ghost use Rattle.fz_space.specs.Alive.{spaced, FrontFixed, AreSettled, HasRun};

use fz_agenda::Agenda;
use fz_engine::Network;
use fz_engine::engine::{Progress, advance};
use fz_prop::{Kept, Store};
use std::alloc::AllocError;

/// Runs the next propagator of the parts of a space, if one is queued; whether one ran. In what has failed none runs.
///
/// # Errors
/// `AllocError` where there is no memory; the space covers what it covered.
pub fn run_next(
    network: &Network,
    store: &mut Store,
    kept: &mut [Kept],
    agenda: &mut Agenda,
    failed: &mut bool,
) -> Result<bool, AllocError>
    requires alive { failed.old ≡ false → IsAlive network.now agenda.old.states store.old }
    requires told { failed.old ≡ false
        → AreTold network.now.sayings kept.old store.old.doms }
    ensures alive { failed.new ≡ false → IsAlive network.now agenda.new.states store.new }
    ensures told { failed.new ≡ false
        → AreTold network.now.sayings kept.new store.new.doms }
    ensures settled { (numbers : List ℤ)
        → AreSettled numbers store.old.doms → AreSettled numbers store.new.doms }
    ensures front { (n : ℕ) → (failed.old ≡ false → FrontFixed n store.old.doms)
        → failed.new ≡ false → FrontFixed n store.new.doms }
    ensures covers { (known : Option (List ℤ)) (ds : List Decision)
        → Covers known ds (spaced network.now.model store.old failed.old)
        → Covers known ds (spaced network.now.model store.new failed.new) }
    ensures narrower { OnOk result (IsNarrower
        (spaced network.now.model store.new failed.new)
        (spaced network.now.model store.old failed.old)) }
    ensures ran { IfOk result (λ b. HasRun b
        (spaced network.now.model store.old failed.old)
        (spaced network.now.model store.new failed.new)) }
    ensures stays { failed.old ≡ true → failed.new ≡ true }
{
    if *failed {
        return Ok(false);
    }
    match advance(network, store, kept, agenda)? {
        Progress::Rested => Ok(false),
        Progress::Failed => {
            *failed = true;
            Ok(true)
        }
        Progress::Going => Ok(true),
    }
}

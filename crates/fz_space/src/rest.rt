//! What is known of a space at rest.
ghost use Rattle.std.specs.Prelude.{◌≡◌, ◌<◌, ℤ, List, Option, length, true, false, IfOk, OnOk};
ghost use Rattle.fz_sets.specs.Sets.{set_size};
ghost use Rattle.fz_strength.specs.Domains.{AreDomains, dom_at};
ghost use Rattle.fz_prop.specs.Told.{AreTold};
ghost use Rattle.fz_tree.specs.declared.decision.Decision.{Decision};
ghost use Rattle.fz_engine.specs.Runs.{IsAlive};
ghost use Rattle.fz_search_space.specs.Spaces.{Covers, IsNarrower, IsStatus};
ghost use Rattle.fz_space.specs.Alive.{spaced, FrontFixed, AreSettled, IsLeft, HaveLines};

use fz_agenda::Agenda;
use fz_dom::Dom;
use fz_engine::Network;
use fz_engine::engine::settle;
use fz_prop::{Kept, Store};
use fz_search_space::Status;
use std::alloc::AllocError;

/// Brings the parts of a space to rest, and says what is known then. What has failed stays so.
///
/// # Errors
/// `AllocError` where there is no memory; the space covers what it covered.
pub fn rest(
    network: &Network,
    store: &mut Store,
    kept: &mut [Kept],
    agenda: &mut Agenda,
    failed: &mut bool,
    front: &mut usize,
) -> Result<Status, AllocError>
    requires alive { failed.old ≡ false → IsAlive network.now agenda.old.states store.old }
    requires told { failed.old ≡ false
        → AreTold network.now.sayings kept.old store.old.doms }
    requires front { failed.old ≡ false → FrontFixed front.old store.old.doms }
    ensures alive { failed.new ≡ false → IsAlive network.now agenda.new.states store.new }
    ensures told { failed.new ≡ false
        → AreTold network.now.sayings kept.new store.new.doms }
    ensures settled { (numbers : List ℤ)
        → AreSettled numbers store.old.doms → AreSettled numbers store.new.doms }
    ensures front { failed.new ≡ false → FrontFixed front.new store.new.doms }
    ensures covers { (known : Option (List ℤ)) (ds : List Decision)
        → Covers known ds (spaced network.now.model store.old failed.old)
        → Covers known ds (spaced network.now.model store.new failed.new) }
    ensures narrower { OnOk result (IsNarrower
        (spaced network.now.model store.new failed.new)
        (spaced network.now.model store.old failed.old)) }
    ensures answer { IfOk result (λ r. IsStatus r (spaced network.now.model store.new failed.new)) }
    ensures lines { IfOk result (λ r. HaveLines r network.now.model store.new.doms) }
    ensures stays { failed.old ≡ true → failed.new ≡ true }
{
    if *failed {
        return Ok(Status::Failed);
    }
    let _ = network.model();
    let rests = settle(network, store, kept, agenda)?;
    if !rests {
        *failed = true;
        return Ok(Status::Failed);
    }
    let _ = store.doms();
    *front = first_open(store.doms(), *front);
    Ok(status_at(store.doms(), *front))
}

/// The first variable that has more than one number left, where those before a front have one each; where there is none, the
/// number of variables.
fn first_open(doms: &[Dom], front: usize) -> usize
    requires domains { AreDomains doms.now }
    requires front { FrontFixed front doms.now }
    ensures front { FrontFixed result doms.now }
    ensures open { result < length doms.now → set_size (dom_at doms.now result) ≡ 1 → ⊥ }
{
    for place in front..doms.len() {
        if !doms[place].is_fixed() {
            return place;
        }
    }
    doms.len()
}

/// What is left of domains: one number of each variable, or more of the first that isn't in front.
fn status_at(doms: &[Dom], front: usize) -> Status
    requires domains { AreDomains doms.now }
    requires front { FrontFixed front doms.now }
    requires open { front < length doms.now → set_size (dom_at doms.now front) ≡ 1 → ⊥ }
    ensures { IsLeft result doms.now }
{
    if front < doms.len() {
        Status::Branch
    } else {
        Status::Solved
    }
}

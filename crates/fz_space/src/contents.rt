//! What a space has.
ghost use Rattle.std.specs.Prelude.{◌≡◌, ◌<◌, ◌≤◌, ◌++◌, ◌∷◌, [], ℤ, List, Option, None, Some, length, take as front_of, true, IfOk, OnOk, OnErr};
ghost use Rattle.std.specs.List.{slice_get};
ghost use Rattle.std.specs.Arc.{arc_value};
ghost use Rattle.fz_spec.specs.Instance.{IsWhole};
ghost use Rattle.fz_tree.specs.declared.decision.Decision.{Decision};
ghost use Rattle.fz_search_space.specs.Spaces.{Spaced, AllBetter, Covers, IsNarrower, IsStatus};
ghost use Rattle.fz_space.specs.Alive.{HasRun, HaveLines};

use crate::bound::keep_better;
use crate::commit::take;
use crate::next::run_next;
use crate::rest::rest;
use crate::root::{Parts, parts_of};
use crate::settled::Settled;
use fz_agenda::Agenda;
use fz_dom::Dom;
use fz_engine::Network;
use fz_model::Assignment;
use fz_prop::{Kept, Store};
use fz_region::Choice;
use fz_search_space::{Status, least_of};
use std::alloc::{AllocError, AllocFailed, Global};
use std::marker::Model;
use std::sync::Arc;

/// What a space has: a store, what runs on it, and what is known of them. What never changes is shared with all copies.
#[derive(Drop)]
pub struct Contents {
    network: Arc<Network>,
    store: Store,
    agenda: Agenda,
    /// What propagators keep between runs.
    kept: Vec<Kept>,
    failed: bool,
    /// Of that many variables at the front one number is left.
    front: usize,
    /// The numbers of variables at the front, where they are many.
    settled: Settled,
}

impl Model for Contents {
    ghost use Rattle.std.specs.Prelude.{◌≡◌, false};
    ghost use Rattle.std.specs.Arc.{arc_value};
    ghost use Rattle.fz_prop.specs.Told.{AreTold};
    ghost use Rattle.fz_engine.specs.Runs.{IsAlive};
    ghost use Rattle.fz_search_space.specs.Spaces.{Spaced};
    ghost use Rattle.fz_space.specs.Alive.{spaced, FrontFixed, AreSettled};

    ghost Value = { Spaced };

    ghost view = { λ s. spaced (arc_value s.network).model s.store s.failed };

    ghost invariant = { λ s. (s.failed ≡ false
        → IsAlive (arc_value s.network) s.agenda.states s.store
        × FrontFixed s.front s.store.doms
        × AreTold (arc_value s.network).sayings s.kept.items s.store.doms)
        × AreSettled s.settled s.store.doms };
}

impl Contents {
    /// Its store.
    pub fn store(&self) -> &Store
        ensures { result.now.doms ≡ self.now.doms }
    {
        &self.store
    }

    /// Runs the next propagator, if one is queued; whether one ran. In a space that has failed none runs; one whose propagator finds
    /// that nothing is left has failed from then on.
    ///
    /// # Errors
    /// `AllocError` where there is no memory; the space covers what it covered, and can be asked again.
    pub fn advance(&mut self) -> Result<bool, AllocError>
        ensures model { self.new.model ≡ self.old.model }
        ensures covers { (known : Option (List ℤ)) (ds : List Decision)
            → Covers known ds self.old → Covers known ds self.new }
        ensures ran { IfOk result (λ b. HasRun b self.old self.new) }
        ensures narrower { OnOk result (IsNarrower self.new self.old) }
        ensures stays { self.old.failed ≡ true → self.new.failed ≡ true }
    {
        run_next(
            &self.network,
            &mut self.store,
            &mut self.kept,
            &mut self.agenda,
            &mut self.failed,
        )
    }
}

impl fz_search_space::SearchSpace for Contents {
    ghost accepts = { λ m. Unit {0} };

    ghost spaced = { λ s. s };

    fn root(
        alloc: Global,
        model: Arc<fz_model::Model>,
    ) -> Result<Contents, AllocFailed<Arc<fz_model::Model>>> {
        match space_of(alloc, &model) {
            Ok(space) => Ok(space),
            Err(_) => Err(AllocFailed { value: model }),
        }
    }

    /// What has failed stays so; a decision on a variable that the model lacks makes the space failed.
    ///
    /// # Errors
    /// `AllocError` where there is no memory; the space is left as it was.
    fn commit(&mut self, choice: &Choice, alternative: u32) -> Result<(), AllocError>
        requires { alternative < length choice.now }
        ensures model { self.new.model ≡ self.old.model }
        ensures covers { OnOk result ((known : Option (List ℤ)) (ds : List Decision) (d : Decision)
            → slice_get choice.now alternative ≡ Some d
            → Covers known ds self.old → Covers known (ds ++ d ∷ []) self.new) }
        ensures narrower { OnOk result (IsNarrower self.new self.old) }
        ensures stays { self.old.failed ≡ true → self.new.failed ≡ true }
        ensures lacking { OnOk result ((d : Decision) → slice_get choice.now alternative ≡ Some d
            → length self.old.model.variables ≤ d.variable → self.new.failed ≡ true) }
        ensures err { OnErr result (self.new ≡ self.old) }
    {
        take(
            &mut self.store,
            &mut self.failed,
            choice.decision(alternative),
        )
    }

    /// What has failed stays so.
    ///
    /// # Errors
    /// `AllocError` where there is no memory; the space is left as it was.
    fn tell_bound(&mut self, known: &Assignment) -> Result<(), AllocError>
        requires { IsWhole self.old.model known.now }
        ensures model { self.new.model ≡ self.old.model }
        ensures covers { OnOk result ((ds : List Decision)
            → Covers (Some known.now) ds self.old → Covers (Some known.now) ds self.new) }
        ensures better { OnOk result (AllBetter known.now self.new) }
        ensures narrower { OnOk result (IsNarrower self.new self.old) }
        ensures stays { self.old.failed ≡ true → self.new.failed ≡ true }
        ensures err { OnErr result (self.new ≡ self.old) }
    {
        keep_better(&self.network, &mut self.store, &mut self.failed, known)
    }

    /// At a branch the line of each constraint holds. What has failed stays so.
    ///
    /// # Errors
    /// `AllocError` where there is no memory; the space covers what it covered, and can be asked again.
    fn status(&mut self) -> Result<Status, AllocError>
        ensures model { self.new.model ≡ self.old.model }
        ensures covers { (known : Option (List ℤ)) (ds : List Decision)
            → Covers known ds self.old → Covers known ds self.new }
        ensures answer { IfOk result (λ status. IsStatus status self.new) }
        ensures lines { IfOk result
            (λ status. HaveLines status self.new.model self.new.doms) }
        ensures narrower { OnOk result (IsNarrower self.new self.old) }
        ensures stays { self.old.failed ≡ true → self.new.failed ≡ true }
    {
        let status = rest(
            &self.network,
            &mut self.store,
            &mut self.kept,
            &mut self.agenda,
            &mut self.failed,
            &mut self.front,
        )?;
        if status == Status::Branch {
            let alloc = *self.kept.allocator();
            self.settled.grow(alloc, &self.store, self.front)?;
        }
        Ok(status)
    }

    fn model(&self) -> &fz_model::Model {
        self.network.model()
    }

    fn doms(&self) -> &[Dom] {
        self.store.doms()
    }

    fn closed(&self) -> usize {
        self.front
    }

    fn least(&self, alloc: Global) -> Result<Assignment, AllocError> {
        least_of(alloc, self.settled.numbers(), self.store.doms())
    }

    fn copy(&self) -> Result<Contents, AllocError> {
        let network = self.network.clone()?;
        let store = self.store.copy()?;
        let agenda = self.agenda.copy()?;
        let kept = Vec::from_slice(*self.kept.allocator(), &self.kept)?;
        let settled = self.settled.share()?;
        Ok(Contents {
            network,
            store,
            agenda,
            kept,
            failed: self.failed,
            front: self.front,
            settled,
        })
    }

    fn copy_from(&mut self, other: &Contents) -> Result<(), AllocError> {
        let from = self.settled.shared_count(&other.settled);
        self.failed = true;
        self.settled = Settled::none();
        self.network = other.network.clone()?;
        write_store(&mut self.store, &other.store, from)?;
        self.settled = other.settled.share()?;
        write_agenda(&mut self.agenda, &other.agenda)?;
        write_kept(&mut self.kept, &other.kept)?;
        self.front = other.front;
        self.failed = other.failed;
        Ok(())
    }
}

/// The space of a model's root.
fn space_of(alloc: Global, model: &Arc<fz_model::Model>) -> Result<Contents, AllocError>
    ensures model { IfOk result (λ s. s.model ≡ arc_value model.now) }
    ensures covers { IfOk result (λ s. Covers None [] s) }
{
    let network = network_of(alloc, model.clone()?)?;
    let Parts {
        store,
        agenda,
        kept,
        failed,
    } = parts_of(alloc, &network)?;
    Ok(Contents {
        network,
        store,
        agenda,
        kept,
        failed,
        front: 0,
        settled: Settled::none(),
    })
}

/// The network of a model, to be shared.
fn network_of(alloc: Global, model: Arc<fz_model::Model>) -> Result<Arc<Network>, AllocError>
    ensures { IfOk result (λ p. (arc_value p).model ≡ arc_value model) }
{
    let network = Network::new(alloc, model)?;
    match Arc::new(alloc, network) {
        Ok(network) => Ok(network),
        Err(_) => Err(AllocError),
    }
}

/// Writes a store over another, in its room where both have as many variables. They have the same domains before a place.
fn write_store(store: &mut Store, other: &Store, from: usize) -> Result<(), AllocError>
    requires within { from ≤ length other.now.doms }
    requires front { front_of from store.old.doms ≡ front_of from other.now.doms }
    ensures { OnOk result (store.new ≡ other.now) }
{
    if store.doms().len() == other.doms().len() {
        return store.copy_rest(other, from);
    }
    *store = other.copy()?;
    Ok(())
}

/// Writes an agenda over another, in its room where both have as many propagators.
fn write_agenda(agenda: &mut Agenda, other: &Agenda) -> Result<(), AllocError>
    ensures { OnOk result (agenda.new ≡ other.now) }
{
    if agenda.len() == other.len() {
        return agenda.copy_from(other);
    }
    *agenda = other.copy()?;
    Ok(())
}

/// Writes what propagators keep over what others keep, in its room where both are as many.
fn write_kept(kept: &mut Vec<Kept>, other: &Vec<Kept>) -> Result<(), AllocError>
    ensures { OnOk result (kept.new.items ≡ other.now.items) }
{
    if kept.len() == other.len() {
        kept.copy_from_slice(other);
        return Ok(());
    }
    *kept = Vec::from_slice(*other.allocator(), other)?;
    Ok(())
}

//! Portfolios.
ghost use Rattle.std.specs.Prelude.{◌≡◌, ◌≢◌, ◌≤◌, ◌<◌, length, IfOk, IfErr, IfSome, OnErr};
ghost use Rattle.std.specs.Arc.{arc_value};
ghost use Rattle.fz_spec.specs.Instance.{Satisfies};
ghost use Rattle.fz_tree.specs.Better.{IsModeOf};
ghost use Rattle.fz_machine.specs.Cores.{CoreLaw};
ghost use Rattle.fz_machine.specs.Portfolios.{AppliesAt, RefusesAt, Shares, IsIncumbentAt, IsOfferedAt, IsBestWhereClosed, PortfolioLaw, assets_of, core_at, gathered};

use crate::event::{Answer, Event};
use crate::machine::Machine;
use crate::shared::Shared;
use fz_account::Mode;
use fz_branch::Plan;
use fz_model::Assignment;
use fz_search_space::SearchSpace;
use std::alloc::{AllocError, AllocFailed, Global};
use std::marker::Model;
use std::sync::Arc;

/// Machines of one model, which they search each by its own plan: those of the assets, by their numbers from 0.
#[derive(Drop)]
pub struct Portfolio<S: SearchSpace> {
    model: Arc<fz_model::Model>,
    mode: Mode,
    machines: Vec<Machine<S>>,
}

impl<S: SearchSpace> Model for Portfolio<S> {
    ghost use Rattle.std.specs.Arc.{arc_value};
    ghost use Rattle.fz_machine.specs.Portfolios as portfolios;

    ghost Value = { portfolios.Portfolio };

    ghost view = { λ p. record {
      model = arc_value p.model;
      mode = p.mode;
      cores = p.machines.items;
    } };

    ghost invariant = { λ p. portfolios.PortfolioLaw (record {
      model = arc_value p.model;
      mode = p.mode;
      cores = p.machines.items;
    }) };
}

impl<S: SearchSpace> Portfolio<S> {
    /// That many assets, each with idle workers and a book of the whole tree. `workers` are those of one asset.
    ///
    /// # Errors
    /// `AllocFailed` with the model, where there is no memory.
    pub fn new(
        alloc: Global,
        model: Arc<fz_model::Model>,
        mode: Mode,
        assets: u32,
        workers: u32,
        commit_distance: u32,
        adaptive_distance: u32,
    ) -> Result<Portfolio<S>, AllocFailed<Arc<fz_model::Model>>>
        requires accepts { S.accepts (arc_value model) }
        requires mode { IsModeOf (arc_value model).goal mode }
        requires no_rows { mode ≢ Mode.Rows }
        requires assets { (1 ≤ assets) × (assets ≤ 8) }
        requires workers { 1 ≤ workers }
        requires commit_distance { 1 ≤ commit_distance }
        requires adaptive_distance { 1 ≤ adaptive_distance }
        ensures ok { IfOk result (λ p. p ≡ gathered
            (arc_value model) mode assets workers commit_distance adaptive_distance) }
        ensures err { IfErr result (λ refused. refused.value ≡ model) }
    {
        let machines = machines_of(
            alloc,
            &model,
            mode,
            assets,
            workers,
            commit_distance,
            adaptive_distance,
        );
        let Ok(machines) = machines else {
            return Err(AllocFailed { value: model });
        };
        Ok(Portfolio {
            model,
            mode,
            machines,
        })
    }

    /// Lets an event of an asset happen, as `Machine::apply` does. The other assets stay as they are.
    ///
    /// # Errors
    /// `AllocError` where there is no memory, as there.
    pub fn apply(&mut self, asset: u32, event: Event) -> Result<Answer, AllocError>
        requires { asset < length self.old.cores }
        ensures ok { IfOk result (λ answer. AppliesAt asset event answer self.old self.new) }
        ensures err { OnErr result (RefusesAt asset event self.old self.new) }
    {
        let _ = &self.model;
        self.machines[asset as usize].apply(event)
    }

    /// Offers a copy of the incumbent of one asset's book to that of another: `NotBetter` exactly where there is none, or it isn't
    /// better; then nothing changes.
    ///
    /// # Errors
    /// `AllocError` where there is no memory; nothing has changed.
    pub fn share(&mut self, from: u32, to: u32) -> Result<Shared, AllocError>
        requires other { from ≢ to }
        requires from { from < length self.old.cores }
        requires to { to < length self.old.cores }
        ensures ok { IfOk result (λ shared. Shares shared from to self.old self.new) }
        ensures err { OnErr result (self.new ≡ self.old) }
    {
        match self.best_of(from)? {
            Some(best) => self.offer(to, best),
            None => Ok(Shared::NotBetter),
        }
    }

    /// A copy of the incumbent of an asset's book.
    fn best_of(&self, asset: u32) -> Result<Option<Assignment>, AllocError>
        requires { asset < length self.now.cores }
        ensures best { IfOk result (IsIncumbentAt asset self.now) }
        ensures known { IfOk result (λ best. IfSome best
            (λ a. (self.now.mode ≡ Mode.Best) × Satisfies self.now.model a)) }
    {
        match self.core(asset).book().incumbent() {
            Some(best) => Ok(Some(best.copy()?)),
            None => Ok(None),
        }
    }

    /// Offers the book of an asset what the model of all is satisfied by, in a search for the best one.
    fn offer(&mut self, asset: u32, best: Assignment) -> Result<Shared, AllocError>
        requires asset { asset < length self.old.cores }
        requires mode { self.old.mode ≡ Mode.Best }
        requires satisfies { Satisfies self.old.model best }
        ensures ok { IfOk result (λ shared. IsOfferedAt asset best shared self.old self.new) }
        ensures err { OnErr result (self.new ≡ self.old) }
    {
        let _ = &self.model;
        self.machines[asset as usize].offer(best)
    }

    /// The machine of an asset.
    pub fn core(&self, asset: u32) -> &Machine<S>
        requires { asset < length self.now.cores }
        ensures core { core_at self.now asset ≡ Some result.now }
        ensures law { CoreLaw result.now }
        ensures best { IsBestWhereClosed result.now.book }
        ensures portfolio { PortfolioLaw self.now }
    {
        let _ = &self.model;
        &self.machines[asset as usize]
    }

    /// How many assets there are.
    pub fn assets(&self) -> u32
        ensures assets { result ≡ length self.now.cores }
        ensures law { PortfolioLaw self.now }
    {
        let _ = &self.model;
        self.machines.len() as u32
    }
}

/// The machines of that many assets.
///
/// # Errors
/// `AllocError` where there is no memory.
fn machines_of<S: SearchSpace>(
    alloc: Global,
    model: &Arc<fz_model::Model>,
    mode: Mode,
    assets: u32,
    workers: u32,
    commit_distance: u32,
    adaptive_distance: u32,
) -> Result<Vec<Machine<S>>, AllocError>
    requires accepts { S.accepts (arc_value model.now) }
    requires mode { IsModeOf (arc_value model.now).goal mode }
    requires no_rows { mode ≢ Mode.Rows }
    requires few { assets ≤ 8 }
    requires workers { 1 ≤ workers }
    requires commit_distance { 1 ≤ commit_distance }
    requires adaptive_distance { 1 ≤ adaptive_distance }
    ensures { IfOk result (λ machines. machines.items ≡ assets_of
        (arc_value model.now) mode assets workers commit_distance adaptive_distance) }
{
    let mut machines = Vec::new(alloc);
    for asset in 0..assets {
        let plan = Plan::of_asset(alloc, model, asset)?;
        machines.push(Machine::by_plan(
            alloc,
            model,
            mode,
            plan,
            workers,
            commit_distance,
            adaptive_distance,
        )?)?;
    }
    Ok(machines)
}

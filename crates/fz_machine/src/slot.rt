//! One worker.
ghost use Rattle.std.specs.Prelude.{◌≡◌, ◌≢◌, ◌≤◌, replicate, true, None, Some, is_some, IfOk, IfSome, OnOk, OnErr};
ghost use Rattle.std.specs.List.{slice_get};
ghost use Rattle.std.specs.Arc.{arc_value};
ghost use Rattle.fz_tree.specs.Better.{IsModeOf};
ghost use Rattle.fz_tree.specs.Account as accounts;
ghost use Rattle.fz_tree.specs.Account.{with_given};
ghost use Rattle.fz_tree.specs.Book.{Takes};
ghost use Rattle.fz_tree.specs.Frontier.{part_of};
ghost use Rattle.fz_branch.specs.Plans.{IsPlanOf};
ghost use Rattle.fz_path.specs.Paths.{bare, held_behind, can_cut_held};
ghost use Rattle.fz_path.specs.Tasks as tasks;
ghost use Rattle.fz_path.specs.Starts.{TakesUp};
ghost use Rattle.fz_path.specs.Cuts.{IsNearOf, held_behind_cut};
ghost use Rattle.fz_machine.specs.Cores.{idle, idle_by};
ghost use Rattle.fz_machine.specs.Events.{holding};
ghost use Rattle.fz_machine.specs.Lawfulness.{is_free, is_ready, is_busy, can_be_cut};
ghost use Rattle.fz_book.specs.Reports.{IsReportable};

use fz_account::Mode;
use fz_book::Book;
use fz_branch::Plan;
use fz_path::{Path, Start, Task};
use fz_search_space::SearchSpace;
use std::alloc::{AllocError, Global};
use std::marker::Model;
use std::sync::Arc;

/// A worker: its path, and the task in its hand.
#[derive(Drop)]
pub struct Slot<S: SearchSpace> {
    pub path: Path<S>,
    pub hand: Option<Task<S>>,
}

impl<S: SearchSpace> Model for Slot<S> {
    ghost use Rattle.fz_branch.specs.Plans.{IsPlanOf};
    ghost use Rattle.fz_path.specs.Paths.{bare};
    ghost use Rattle.fz_machine.specs.Cores.{Worker};

    ghost Value = { Worker };

    ghost view = { λ w. record { path = bare w.path; hand = w.hand } };
}

impl<S: SearchSpace> Slot<S> {
    /// A worker that holds nothing, knows nothing and has no task.
    ///
    /// # Errors
    /// `AllocError` where there is no memory.
    pub fn idle(
        alloc: Global,
        model: &Arc<fz_model::Model>,
        mode: Mode,
        commit_distance: u32,
        adaptive_distance: u32,
    ) -> Result<Slot<S>, AllocError>
        requires accepts { S.accepts (arc_value model.now) }
        requires mode { IsModeOf (arc_value model.now).goal mode }
        requires commit_distance { 1 ≤ commit_distance }
        requires adaptive_distance { 1 ≤ adaptive_distance }
        ensures { IfOk result (λ w. w
            ≡ idle (arc_value model.now) mode commit_distance adaptive_distance) }
    {
        let path = Path::idle(
            alloc,
            model.clone()?,
            mode,
            commit_distance,
            adaptive_distance,
        )?;
        Ok(Slot { path, hand: None })
    }

    /// Takes up the task in its hand, and learns before what comes with it.
    ///
    /// # Errors
    /// `AllocError` where there is no memory; the worker is as before.
    pub fn start(&mut self) -> Result<(), AllocError>
        requires idle { self.old.path.held ≡ None }
        requires full { is_some self.old.hand ≡ true }
        ensures started { OnOk result ((task : tasks.Tasked) × (self.old.hand ≡ Some task)
            × TakesUp self.old.path self.new.path task × (self.new.hand ≡ None)) }
        ensures err { OnErr result (self.new ≡ self.old) }
    {
        let Some(task) = self.hand.take() else {
            unreachable!()
        };
        match self.path.start_near(task) {
            Start::Started => Ok(()),
            Start::Busy(_) => unreachable!(),
            Start::NoMemory(task) => {
                self.hand = Some(task);
                Err(AllocError)
            }
        }
    }

    /// The book takes the account of what it holds, and it goes on with what is left.
    ///
    /// # Errors
    /// `AllocError` where there is no memory; the worker is as before, and so is the book, but for its room.
    pub fn report(&mut self, book: &mut Book) -> Result<(), AllocError>
        requires holds { is_some self.old.path.held ≡ true }
        requires reportable { IfSome self.old.path.held (IsReportable book.old.book) }
        ensures reported { OnOk result ((c : accounts.Account) × (self.old.path.held ≡ Some c)
            × Takes book.old.book c book.new.book × (self.new ≡ holding self.old (held_behind c))) }
        ensures same { OnErr result (self.new ≡ self.old) }
        ensures book { OnErr result (book.new.book ≡ book.old.book) }
        ensures gone { book.new.gone ≡ book.old.gone }
    {
        book.make_room(self.path.found_count() + 1, 1)?;
        let Some(account) = self.path.report()? else {
            unreachable!()
        };
        book.take_open(account);
        Ok(())
    }

    /// Cuts a part off what it holds and hands it out. The book takes the account that names it as given, and the worker goes on
    /// with what is left.
    ///
    /// # Errors
    /// `AllocError` where there is no memory; the worker is as before, and so is the book, but for its room.
    pub fn cut(&mut self, book: &mut Book) -> Result<Task<S>, AllocError>
        requires can { can_cut_held self.old.path.held ≡ true }
        requires reportable { IfSome self.old.path.held (IsReportable book.old.book) }
        ensures cut { IfOk result (λ task. (c : accounts.Account) × (self.old.path.held ≡ Some c)
            × (task.frontier ≡ part_of c.after) × IfSome task.near (IsNearOf self.old.path)
            × Takes book.old.book (with_given c) book.new.book
            × (self.new ≡ holding self.old (held_behind_cut c))) }
        ensures same { OnErr result (self.new ≡ self.old) }
        ensures book { OnErr result (book.new.book ≡ book.old.book) }
        ensures gone { book.new.gone ≡ book.old.gone }
    {
        book.make_room(self.path.found_count() + 1, 1)?;
        let Some(cut) = self.path.cut()? else {
            unreachable!()
        };
        book.take_open(cut.account);
        Ok(cut.task)
    }
}

/// That many idle workers.
///
/// # Errors
/// `AllocError` where there is no memory.
pub fn idle_slots<S: SearchSpace>(
    alloc: Global,
    model: &Arc<fz_model::Model>,
    mode: Mode,
    workers: u32,
    commit_distance: u32,
    adaptive_distance: u32,
) -> Result<Vec<Slot<S>>, AllocError>
    requires accepts { S.accepts (arc_value model.now) }
    requires mode { IsModeOf (arc_value model.now).goal mode }
    requires commit_distance { 1 ≤ commit_distance }
    requires adaptive_distance { 1 ≤ adaptive_distance }
    ensures { IfOk result (λ slots. slots.items ≡ replicate workers
        (idle (arc_value model.now) mode commit_distance adaptive_distance)) }
{
    let mut slots = Vec::new(alloc);
    for _worker in 0..workers {
        slots.push(Slot::idle(alloc, model, mode, commit_distance, adaptive_distance)?)?;
    }
    Ok(slots)
}

/// That many idle workers, by a plan of the model in place of its own.
///
/// # Errors
/// `AllocError` where there is no memory.
pub fn slots_by<S: SearchSpace>(
    alloc: Global,
    model: &Arc<fz_model::Model>,
    mode: Mode,
    plan: Plan,
    workers: u32,
    commit_distance: u32,
    adaptive_distance: u32,
) -> Result<Vec<Slot<S>>, AllocError>
    requires accepts { S.accepts (arc_value model.now) }
    requires mode { IsModeOf (arc_value model.now).goal mode }
    requires no_rows { mode ≢ Mode.Rows }
    requires plan { IsPlanOf (arc_value model.now) plan }
    requires commit_distance { 1 ≤ commit_distance }
    requires adaptive_distance { 1 ≤ adaptive_distance }
    ensures { IfOk result (λ slots. slots.items ≡ replicate workers
        (idle_by (arc_value model.now) mode plan commit_distance adaptive_distance)) }
{
    let model = model.clone()?;
    let path = Path::idle_with(alloc, model, mode, plan, commit_distance, adaptive_distance)?;
    slots_beside(alloc, &path, workers)
}

/// That many workers like this path, which holds nothing, with empty hands.
fn slots_beside<S: SearchSpace>(
    alloc: Global,
    path: &Path<S>,
    workers: u32,
) -> Result<Vec<Slot<S>>, AllocError>
    requires holds_nothing { path.now.held ≡ None }
    requires knows_nothing { path.now.known ≡ None }
    ensures { IfOk result (λ slots. slots.items ≡ replicate workers
        (record { path = bare path.now; hand = None })) }
{
    let mut slots = Vec::new(alloc);
    for _worker in 0..workers {
        slots.push(Slot {
            path: path.beside()?,
            hand: None,
        })?;
    }
    Ok(slots)
}

/// Whether a worker has this number.
pub fn is_worker<S: SearchSpace>(workers: &[Slot<S>], worker: u32) -> bool
    ensures { result ≡ is_some (slice_get workers.now worker) }
{
    (worker as usize) < workers.len()
}

/// Whether the worker of this number is there, holds nothing and has an empty hand.
pub fn is_free<S: SearchSpace>(workers: &[Slot<S>], worker: u32) -> bool
    ensures { result ≡ is_free (slice_get workers.now worker) }
{
    match workers.get(worker as usize) {
        Some(slot) => slot.path.is_idle() && slot.hand.is_none(),
        None => false,
    }
}

/// Whether the worker of this number is there, holds nothing and has a task.
pub fn is_ready<S: SearchSpace>(workers: &[Slot<S>], worker: u32) -> bool
    ensures { result ≡ is_ready (slice_get workers.now worker) }
{
    match workers.get(worker as usize) {
        Some(slot) => slot.path.is_idle() && slot.hand.is_some(),
        None => false,
    }
}

/// Whether the worker of this number is there and holds a frontier.
pub fn is_busy<S: SearchSpace>(workers: &[Slot<S>], worker: u32) -> bool
    ensures { result ≡ is_busy (slice_get workers.now worker) }
{
    match workers.get(worker as usize) {
        Some(slot) => !slot.path.is_idle(),
        None => false,
    }
}

/// Whether a part can be cut off what the worker of this number holds.
pub fn can_be_cut<S: SearchSpace>(workers: &[Slot<S>], worker: u32) -> bool
    ensures { result ≡ can_be_cut (slice_get workers.now worker) }
{
    match workers.get(worker as usize) {
        Some(slot) => slot.path.can_cut(),
        None => false,
    }
}

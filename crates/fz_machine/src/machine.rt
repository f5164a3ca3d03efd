//! Machines.
ghost use Rattle.std.specs.Prelude.{◌≡◌, ◌≢◌, ◌≤◌, ◌<◌, true, length, option_copied, option_map, is_some, IfOk, IfErr, OnErr};
ghost use Rattle.std.specs.Arc.{arc_value};
ghost use Rattle.fz_spec.specs.Instance.{Satisfies};
ghost use Rattle.fz_tree.specs.Better.{IsModeOf};
ghost use Rattle.fz_tree.specs.Book.{BookLaw};
ghost use Rattle.fz_branch.specs.Plans.{IsPlanOf};
ghost use Rattle.fz_path.specs.Paths.{bare};
ghost use Rattle.fz_machine.specs.Cores.{CoreLaw, starting, starting_by, worker_at};
ghost use Rattle.fz_machine.specs.Lawfulness.{is_lawful, has_unclaimed, improving};
ghost use Rattle.fz_machine.specs.Events.{Happens, Refuses};
ghost use Rattle.fz_machine.specs.Runs.{Answers};
ghost use Rattle.fz_machine.specs.Portfolios.{IsOffered};

use crate::event::{Answer, Event, Outcome, outcome_of_learned, outcome_of_step};
use crate::shared::Shared;
use crate::slot::{Slot, can_be_cut, idle_slots, is_busy, is_free, is_ready, is_worker, slots_by};
use fz_account::Mode;
use fz_book::{Book, Offered};
use fz_branch::Plan;
use fz_model::Assignment;
use fz_path::{Path, Task};
use fz_search_space::SearchSpace;
use std::alloc::{AllocError, AllocFailed, Global};
use std::marker::Model;
use std::sync::Arc;

/// Several workers on one book. Workers have numbers from 0.
#[derive(Drop)]
pub struct Machine<S: SearchSpace> {
    workers: Vec<Slot<S>>,
    book: Book,
    ghost whole: { book.gone ≡ 0 },
}

impl<S: SearchSpace> Model for Machine<S> {
    ghost use Rattle.fz_machine.specs.Cores as cores;

    ghost Value = { cores.Core };

    ghost view = { λ m. record { workers = m.workers.items; book = m.book.book } };

    ghost invariant = { λ m. cores.CoreLaw
        (record { workers = m.workers.items; book = m.book.book }) };
}

impl<S: SearchSpace> Machine<S> {
    /// That many idle workers, and a book of which the whole tree is open and unclaimed.
    ///
    /// # Errors
    /// `AllocFailed` with the model, where there is no memory.
    pub fn new(
        alloc: Global,
        model: Arc<fz_model::Model>,
        mode: Mode,
        workers: u32,
        commit_distance: u32,
        adaptive_distance: u32,
    ) -> Result<Machine<S>, AllocFailed<Arc<fz_model::Model>>>
        requires accepts { S.accepts (arc_value model) }
        requires mode { IsModeOf (arc_value model).goal mode }
        requires workers { 1 ≤ workers }
        requires commit_distance { 1 ≤ commit_distance }
        requires adaptive_distance { 1 ≤ adaptive_distance }
        ensures ok { IfOk result (λ m. m
            ≡ starting (arc_value model) mode workers commit_distance adaptive_distance) }
        ensures err { IfErr result (λ refused. refused.value ≡ model) }
    {
        let slots = idle_slots(
            alloc,
            &model,
            mode,
            workers,
            commit_distance,
            adaptive_distance,
        );
        let Ok(slots) = slots else {
            return Err(AllocFailed { value: model });
        };
        let book = Book::begin(alloc, model, mode)?;
        Ok(Machine {
            workers: slots,
            book,
        })
    }

    /// The same, by a plan of the model in place of its own.
    ///
    /// # Errors
    /// `AllocError` where there is no memory.
    pub(crate) fn by_plan(
        alloc: Global,
        model: &Arc<fz_model::Model>,
        mode: Mode,
        plan: Plan,
        workers: u32,
        commit_distance: u32,
        adaptive_distance: u32,
    ) -> Result<Machine<S>, AllocError>
        requires accepts { S.accepts (arc_value model.now) }
        requires mode { IsModeOf (arc_value model.now).goal mode }
        requires no_rows { mode ≢ Mode.Rows }
        requires plan { IsPlanOf (arc_value model.now) plan }
        requires workers { 1 ≤ workers }
        requires commit_distance { 1 ≤ commit_distance }
        requires adaptive_distance { 1 ≤ adaptive_distance }
        ensures { IfOk result (λ m. m ≡ starting_by
            (arc_value model.now) mode plan workers commit_distance adaptive_distance) }
    {
        let workers = slots_by(
            alloc,
            model,
            mode,
            plan,
            workers,
            commit_distance,
            adaptive_distance,
        )?;
        let book = Book::begin(alloc, model.clone()?, mode)?;
        Ok(Machine { workers, book })
    }

    /// Lets an event happen, and says what came of it: `Unlawful` exactly where it isn't lawful; then nothing changes.
    ///
    /// # Errors
    /// `AllocError` where there is no memory; nothing has changed, but that a worker that was to look at a node may have moved
    /// there.
    pub fn apply(&mut self, event: Event) -> Result<Answer, AllocError>
        ensures ok { IfOk result (λ answer. Answers answer event self.old self.new) }
        ensures err { OnErr result (Refuses event self.old self.new) }
    {
        if !self.is_lawful(event) {
            return Ok(Answer::Unlawful(event));
        }
        Ok(Answer::Applied(self.act(event)?))
    }

    /// Whether an event is lawful.
    pub fn is_lawful(&self, event: Event) -> bool
        ensures { result ≡ is_lawful self.now event }
    {
        match event {
            Event::Claim(worker) => is_free(&self.workers, worker) && self.has_unclaimed(),
            Event::Start(worker) => is_ready(&self.workers, worker),
            Event::Step(worker) => is_busy(&self.workers, worker),
            Event::Report(worker) => is_busy(&self.workers, worker),
            Event::Steal(victim, thief) => {
                victim != thief
                    && (can_be_cut(&self.workers, victim) && is_free(&self.workers, thief))
            }
            Event::Learn(worker, number) => {
                is_worker(&self.workers, worker) && (number as usize) < self.improving().len()
            }
        }
    }

    /// The workers, each by its number.
    pub(crate) fn slots(&self) -> &[Slot<S>]
        ensures { result.now ≡ self.now.workers }
    {
        &self.workers
    }

    /// Whether some part is open that nobody has claimed.
    pub(crate) fn has_unclaimed(&self) -> bool
        ensures { result ≡ has_unclaimed self.now.book }
    {
        self.book.has_unclaimed()
    }

    /// What the book recorded as better ones.
    pub(crate) fn improving(&self) -> &[Assignment]
        ensures { result.now ≡ improving self.now.book }
    {
        match self.book.mode() {
            Mode::All | Mode::Rows => &[],
            Mode::Best => self.book.recorded(),
        }
    }

    /// A lawful event happens.
    pub(crate) fn act(&mut self, event: Event) -> Result<Outcome, AllocError>
        requires { is_lawful self.old event ≡ true }
        ensures ok { IfOk result (λ outcome. Happens event outcome self.old self.new) }
        ensures err { OnErr result (Refuses event self.old self.new) }
    {
        match event {
            Event::Claim(worker) => self.claim(worker),
            Event::Start(worker) => self.start(worker),
            Event::Step(worker) => self.step(worker),
            Event::Report(worker) => self.report(worker),
            Event::Steal(victim, thief) => self.steal(victim, thief),
            Event::Learn(worker, number) => self.learn(worker, number),
        }
    }

    fn claim(&mut self, worker: u32) -> Result<Outcome, AllocError>
        requires { is_lawful self.old (Event.Claim worker) ≡ true }
        ensures ok { IfOk result (λ outcome.
            Happens (Event.Claim worker) outcome self.old self.new) }
        ensures err { OnErr result (self.new ≡ self.old) }
    {
        let Some(frontier) = self.book.claim()? else {
            unreachable!()
        };
        self.workers[worker as usize].hand = Some(Task::of(frontier));
        Ok(Outcome::Moved)
    }

    fn start(&mut self, worker: u32) -> Result<Outcome, AllocError>
        requires { is_lawful self.old (Event.Start worker) ≡ true }
        ensures ok { IfOk result (λ outcome.
            Happens (Event.Start worker) outcome self.old self.new) }
        ensures err { OnErr result (self.new ≡ self.old) }
    {
        self.workers[worker as usize].start()?;
        Ok(Outcome::Moved)
    }

    fn step(&mut self, worker: u32) -> Result<Outcome, AllocError>
        requires { is_lawful self.old (Event.Step worker) ≡ true }
        ensures ok { IfOk result (λ outcome.
            Happens (Event.Step worker) outcome self.old self.new) }
        ensures err { OnErr result (Refuses (Event.Step worker) self.old self.new) }
    {
        let step = self.workers[worker as usize].path.step()?;
        let Some(outcome) = outcome_of_step(step) else {
            unreachable!()
        };
        Ok(outcome)
    }

    fn report(&mut self, worker: u32) -> Result<Outcome, AllocError>
        requires { is_lawful self.old (Event.Report worker) ≡ true }
        ensures ok { IfOk result (λ outcome.
            Happens (Event.Report worker) outcome self.old self.new) }
        ensures err { OnErr result (self.new ≡ self.old) }
    {
        self.workers[worker as usize].report(&mut self.book)?;
        Ok(Outcome::Moved)
    }

    fn steal(&mut self, victim: u32, thief: u32) -> Result<Outcome, AllocError>
        requires { is_lawful self.old (Event.Steal victim thief) ≡ true }
        ensures ok { IfOk result (λ outcome.
            Happens (Event.Steal victim thief) outcome self.old self.new) }
        ensures err { OnErr result (self.new ≡ self.old) }
    {
        let task = self.workers[victim as usize].cut(&mut self.book)?;
        self.workers[thief as usize].hand = Some(task);
        Ok(Outcome::Moved)
    }

    fn learn(&mut self, worker: u32, number: u32) -> Result<Outcome, AllocError>
        requires { is_lawful self.old (Event.Learn worker number) ≡ true }
        ensures ok { IfOk result (λ outcome.
            Happens (Event.Learn worker number) outcome self.old self.new) }
        ensures err { OnErr result (self.new ≡ self.old) }
    {
        let assignment = &self.book.recorded()[number as usize];
        let learned = self.workers[worker as usize].path.learn(assignment)?;
        Ok(outcome_of_learned(learned))
    }

    /// Offers the book an assignment that satisfies and was found elsewhere, in a search for the best one.
    ///
    /// # Errors
    /// `AllocError` where there is no memory; nothing has changed.
    pub(crate) fn offer(&mut self, assignment: Assignment) -> Result<Shared, AllocError>
        requires mode { self.old.book.mode ≡ Mode.Best }
        requires satisfies { Satisfies self.old.book.model assignment }
        ensures ok { IfOk result (λ shared. IsOffered shared assignment self.old self.new) }
        ensures err { OnErr result (self.new ≡ self.old) }
    {
        match self.book.offer_found(assignment) {
            Ok(Offered::Better) => Ok(Shared::Better),
            Ok(Offered::NotBetter(_)) => Ok(Shared::NotBetter),
            Err(_) => Err(AllocError),
        }
    }

    /// The book. It keeps its law, so where nothing is open it is complete.
    pub fn book(&self) -> &Book
        ensures book { result.now.book ≡ self.now.book }
        ensures law { CoreLaw self.now }
    {
        &self.book
    }

    /// The book, without the workers.
    pub fn into_book(self) -> Book
        ensures book { result.book ≡ self.book }
        ensures whole { result.gone ≡ 0 }
        ensures law { BookLaw result.book }
    {
        self.book
    }

    /// How many workers there are.
    pub fn workers(&self) -> u32
        ensures workers { result ≡ length self.now.workers }
        ensures law { CoreLaw self.now }
    {
        self.workers.len() as u32
    }

    /// The path of a worker.
    pub fn path(&self, worker: u32) -> &Path<S>
        requires { worker < length self.now.workers }
        ensures { option_map (λ w. w.path) (worker_at self.now worker) ≡ Some (bare result.now) }
    {
        &self.workers[worker as usize].path
    }

    /// The task in the hand of a worker.
    pub fn hand(&self, worker: u32) -> Option<&Task<S>>
        requires { worker < length self.now.workers }
        ensures { option_map (λ w. w.hand) (worker_at self.now worker)
            ≡ Some (option_copied result) }
    {
        self.workers[worker as usize].hand.as_ref()
    }
}

//! A whole search by one schedule.
ghost use Rattle.std.specs.Prelude.{◌≡◌, ◌↔◌, ◌≤◌, ◌<◌, ◌-◌, [], List, length, true, IsTrue, IsSomeAnd, MatchOption, IfOk, OnOk, OnErr};
ghost use Rattle.fz_model.specs.Kept.{IsModel};
ghost use Rattle.fz_machine.specs.declared.event.Event.{Event};
ghost use Rattle.fz_machine.specs.Cores.{CoreLaw, worker_at};
ghost use Rattle.fz_machine.specs.Lawfulness.{improving};
ghost use Rattle.fz_machine.specs.Runs.{Runs};
ghost use Rattle.fz_machine.specs.Schedule as schedule;
ghost use Rattle.fz_machine.specs.Schedule.{HasNews, IsNext, NoneActs, FirstActs, IsTurn, HasGone, HasStopped};

use crate::event::Event;
use crate::machine::Machine;
use crate::schedule::{next_number, picked};
use crate::slot::{can_be_cut, is_busy, is_ready};
use fz_book::{End, has_enough};
use fz_path::Path;
use fz_search_space::SearchSpace;
use fz_truth::better;
use std::alloc::AllocError;

impl<S: SearchSpace> Machine<S> {
    /// Lets the workers act, one event after the other, until nothing is open or as many are recorded as are asked for. Whose turn
    /// it is says a number that begins with the seed: of the worker that it picks and those after it, around, the first acts that
    /// has a next event.
    ///
    /// # Errors
    /// `AllocError` where there is no memory; what happened so far stays.
    pub fn run(&mut self, seed: u64, enough: Option<u32>) -> Result<End, AllocError>
        ensures enough { IfOk result (λ end. (end ≡ End.Enough)
            ↔ IsSomeAnd enough (λ n. n ≤ length self.new.book.recorded)) }
        ensures closed { IfOk result (λ end. end ≡ End.Closed → self.new.book.parts ≡ []) }
        ensures gone { OnOk result (HasGone enough seed self.old self.new) }
        ensures stopped { OnErr result (HasStopped enough seed self.old self.new) }
        ensures model { self.new.book.model ≡ self.old.book.model }
        ensures mode { self.new.book.mode ≡ self.old.book.mode }
        ensures events { (events : List Event) × Runs events self.old self.new }
    {
        let mut number = seed;
        'turns: loop {
            if has_enough(self.book(), enough) {
                return Ok(End::Enough);
            }
            number = next_number(number);
            let Some(event) = self.turn(number, enough) else {
                return Ok(End::Closed);
            };
            self.act(event)?;
        }
    }

    /// The event whose turn it is by a number; none where the book is closed.
    pub fn turn(&self, number: u64, enough: Option<u32>) -> Option<Event>
        ensures turn { IsTurn self.now enough
            (schedule.picked number (length self.now.workers)) result }
        ensures law { CoreLaw self.now }
        ensures kept { IsModel self.now.book.model }
    {
        let _ = self.book().model().goal();
        self.event_around(picked(number, self.workers()), enough)
    }

    /// The next event of the first of this worker and those after it, around, that has one.
    fn event_around(&self, first: u32, enough: Option<u32>) -> Option<Event>
        requires { first < length self.now.workers }
        ensures { IsTurn self.now enough first result }
    {
        match self.first_event(first, self.workers(), enough) {
            Some(event) => Some(event),
            None => self.first_event(0, first, enough),
        }
    }

    /// The next event of the first of these workers that has one.
    fn first_event(&self, from: u32, to: u32, enough: Option<u32>) -> Option<Event>
        requires { to ≤ length self.now.workers }
        ensures { MatchOption result (NoneActs self.now enough from to)
            (FirstActs self.now enough from to) }
    {
        'workers: for worker in from..to {
            if let Some(event) = self.next_event(worker, enough) {
                return Some(event);
            }
        }
        None
    }

    /// What a worker is to do next.
    fn next_event(&self, worker: u32, enough: Option<u32>) -> Option<Event>
        requires { worker < length self.now.workers }
        ensures { IsNext self.now enough worker result }
    {
        let news = self.has_news(worker);
        self.event_of(worker, enough, news)
    }

    /// What a worker is to do next that has news or not.
    fn event_of(&self, worker: u32, enough: Option<u32>, news: bool) -> Option<Event>
        requires { worker < length self.now.workers }
        ensures { result ≡ schedule.event_of self.now enough worker news }
    {
        if is_ready(self.slots(), worker) {
            return Some(Event::Start(worker));
        }
        if self.is_to_report(worker, enough) {
            return Some(Event::Report(worker));
        }
        if is_busy(self.slots(), worker) {
            return Some(if news {
                Event::Learn(worker, self.last_number())
            } else {
                Event::Step(worker)
            });
        }
        self.gain(worker)
    }

    /// What a worker is to do that holds nothing and has no task.
    fn gain(&self, worker: u32) -> Option<Event>
        ensures { result ≡ schedule.gain self.now worker }
    {
        if self.has_unclaimed() {
            return Some(Event::Claim(worker));
        }
        match self.first_cut() {
            Some(victim) => Some(Event::Steal(victim, worker)),
            None => None,
        }
    }

    /// Whether a worker has something to report.
    fn is_to_report(&self, worker: u32, enough: Option<u32>) -> bool
        requires { worker < length self.now.workers }
        ensures { result ≡ schedule.is_to_report enough (worker_at self.now worker) }
    {
        has_report(self.path(worker), enough)
    }

    /// Whether the best that is recorded betters what a worker knows.
    fn has_news(&self, worker: u32) -> bool
        requires { worker < length self.now.workers }
        ensures { IsTrue result ↔ HasNews self.now (worker_at self.now worker) }
    {
        let Some(best) = self.book().incumbent() else {
            return false;
        };
        match self.path(worker).known() {
            Some(known) => better(self.book().model(), best, known),
            None => true,
        }
    }

    /// The number of the last of those recorded as better ones; 0 where there is none.
    fn last_number(&self) -> u32
        ensures { result ≡ length (improving self.now.book) - 1 }
    {
        let _ = self.book().model().goal();
        self.improving().len().saturating_sub(1) as u32
    }

    /// The first worker of whose frontier a part can be cut off.
    fn first_cut(&self) -> Option<u32>
        ensures { result ≡ schedule.first_cut self.now }
    {
        'victims: for worker in 0..self.workers() {
            if can_be_cut(self.slots(), worker) {
                return Some(worker);
            }
        }
        None
    }
}

/// Whether a path has something to report: nothing is left of what it holds, or some number is enough and it has found something.
fn has_report<S: SearchSpace>(path: &Path<S>, enough: Option<u32>) -> bool
    ensures { result ≡ schedule.has_report enough path.now.held }
{
    path.is_spent() || (enough.is_some() && 0 < path.found_count())
}

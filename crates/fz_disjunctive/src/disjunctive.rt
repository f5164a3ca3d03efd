//! The propagator of tasks that share a resource, of which some can't run at the same time.
ghost use Rattle.std.specs.Prelude.{◌≡◌, IfOk};
ghost use Rattle.fz_strength.specs.Sayings.{Share};

use crate::narrow::keep_tasks;
use fz_prop::{Answer, Propagator, Store};
use fz_spec::term::Term;
use std::alloc::{AllocError, Global};
use std::marker::Model;

/// Tasks that together use no more than a bound at any time, kept in order where two of them can't run at the same time.
#[derive(Drop)]
pub struct Disjunctive {
    starts: Vec<Term>,
    durations: Vec<Term>,
    usages: Vec<Term>,
    bound: Term,
}

impl Model for Disjunctive {
    ghost use Rattle.fz_strength.specs.Sayings.{Saying, Share};

    ghost Value = { Saying };

    ghost view = { λ p. Share p.starts.items p.durations.items p.usages.items p.bound };
}

impl Disjunctive {
    /// The propagator of tasks, by their starts, durations and usages, and of a bound.
    ///
    /// # Errors
    /// `AllocError` where there is no memory.
    pub fn new(
        alloc: Global,
        starts: &[Term],
        durations: &[Term],
        usages: &[Term],
        bound: Term,
    ) -> Result<Disjunctive, AllocError>
        ensures { IfOk result (λ p. p ≡ Share starts.now durations.now usages.now bound) }
    {
        Ok(Disjunctive {
            starts: Vec::from_slice(alloc, starts)?,
            durations: Vec::from_slice(alloc, durations)?,
            usages: Vec::from_slice(alloc, usages)?,
            bound,
        })
    }
}

impl Propagator for Disjunctive {
    ghost saying = { λ p. p };

    fn propagate(&self, store: &mut Store) -> Result<Answer, AllocError> {
        keep_tasks(
            *self.starts.allocator(),
            store,
            &self.starts,
            &self.durations,
            &self.usages,
            self.bound,
        )
    }
}

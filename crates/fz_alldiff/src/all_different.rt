//! The propagator of terms that are all different.
ghost use Rattle.std.specs.Prelude.{◌≡◌, ◌↔◌, length, IfOk, IsTrue};
ghost use Rattle.std.specs.List.{AllByRecursion};
ghost use Rattle.fz_strength.specs.Differences.{AreApart};
ghost use Rattle.fz_strength.specs.Domains.{AreDomains, IsTermOf};
ghost use Rattle.fz_strength.specs.Sayings.{Differ, line_of, said_terms, truth_of};
ghost use Rattle.fz_prop.specs.Told.{AreEndsDone, IsAlone, IsLong, IsTold};
ghost use Rattle.fz_prop.specs.Answers.{Narrows};
ghost use Rattle.fz_alldiff.specs.Differing.{IsDifferent};

use crate::differ::keep_different;
use crate::ends::{is_long, move_ends, terms_between};
use fz_prop::{Answer, Kept, Propagator, Store};
use fz_spec::term::Term;
use std::alloc::{AllocError, Global};
use std::marker::Model;

/// Terms that are to be all different.
#[derive(Drop)]
pub struct AllDifferent {
    terms: Vec<Term>,
}

impl Model for AllDifferent {
    ghost use Rattle.fz_strength.specs.Sayings.{Saying, Differ};

    ghost Value = { Saying };

    ghost view = { λ p. Differ p.terms.items };
}

impl AllDifferent {
    /// The propagator of terms that are all different.
    ///
    /// # Errors
    /// `AllocError` where there is no memory.
    pub fn new(alloc: Global, terms: &[Term]) -> Result<AllDifferent, AllocError>
        ensures { IfOk result (λ p. p ≡ Differ terms.now) }
    {
        let terms = Vec::from_slice(alloc, terms)?;
        Ok(AllDifferent { terms })
    }
}

/// Narrows a store so that terms are all different, where of that many at each end none has a number in common with another. The ends
/// move where the line of all holds, which says that the number of each fixed term has left the others.
fn keep_between(
    alloc: Global,
    store: &mut Store,
    terms: &[Term],
    kept: &mut Kept,
) -> Result<Answer, AllocError>
    requires terms { AllByRecursion (IsTermOf (length store.old.doms)) terms.now }
    requires told { AreEndsDone (IsAlone terms.now store.old.doms) terms.now kept.old.front kept.old.back }
    ensures told { AreEndsDone (IsAlone terms.now store.new.doms) terms.now kept.new.front kept.new.back }
    ensures narrows { Narrows (IsDifferent terms.now) (AreApart terms.now) result store.old store.new }
{
    if !is_long(terms) {
        return keep_different(alloc, store, terms);
    }
    let answer = keep_part(alloc, store, terms, kept.front, kept.back)?;
    if let Answer::Fix = answer {
        move_ends(store, terms, kept);
    }
    Ok(answer)
}

/// Narrows a store so that terms are all different, by those between both ends: of that many at each none has a number in common with
/// another.
fn keep_part(
    alloc: Global,
    store: &mut Store,
    terms: &[Term],
    front: u32,
    back: u32,
) -> Result<Answer, AllocError>
    requires terms { AllByRecursion (IsTermOf (length store.old.doms)) terms.now }
    requires told { AreEndsDone (IsAlone terms.now store.old.doms) terms.now front back }
    ensures { Narrows (IsDifferent terms.now) (AreApart terms.now) result store.old store.new }
{
    let part = terms_between(terms, front, back);
    keep_different(alloc, store, part)
}

impl AllDifferent {
    /// Whether it has so many terms that it serves to keep something.
    pub fn keeps(&self) -> bool
        ensures { IsTrue result ↔ IsLong self.now }
    {
        is_long(&self.terms)
    }

    /// Narrows a store, as `propagate` does. Of how many terms at the front and at the back none has a number in common with
    /// another is kept.
    ///
    /// # Errors
    /// `AllocError` where there is no memory for a domain; the store is then narrower, and no assignment is lost.
    pub fn run(&self, store: &mut Store, kept: &mut Kept) -> Result<Answer, AllocError>
        requires terms { AllByRecursion (IsTermOf (length store.old.doms)) (said_terms self.now) }
        requires told { IsTold self.now kept.old store.old.doms }
        ensures told { AreDomains store.new.doms → IsTold self.now kept.new store.new.doms }
        ensures narrows { Narrows (truth_of self.now) (line_of self.now) result
            store.old store.new }
    {
        keep_between(*self.terms.allocator(), store, &self.terms, kept)
    }
}

impl Propagator for AllDifferent {
    ghost saying = { λ p. p };

    fn propagate(&self, store: &mut Store) -> Result<Answer, AllocError> {
        let mut kept = Kept::none();
        self.run(store, &mut kept)
    }
}

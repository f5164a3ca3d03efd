//! Parities.
ghost use Rattle.std.specs.Prelude.{◌≡◌, ◌↔◌, ◌<◌, ◌-◌, pos, length, true, IfOk, IsTrue, OnErr};
ghost use Rattle.std.specs.List.{AllByRecursion};
ghost use Rattle.fz_strength.specs.Clauses.{positive};
ghost use Rattle.fz_strength.specs.Domains.{AreDomains, IsTermOf};
ghost use Rattle.fz_strength.specs.Promises.{Suits};
ghost use Rattle.fz_strength.specs.Sayings.{Odd, line_of, said_terms, truth_of};
ghost use Rattle.fz_prop.specs.Told.{AreEndsOdd, IsLong, IsTold};
ghost use Rattle.fz_prop.specs.Answers.{IsAnswerOf, IsCorrectOf, Narrows};
ghost use Rattle.fz_prop.specs.Stores.{Shrinks, IsTermChange};
ghost use Rattle.fz_bool.specs.Parity.{OddTruth, OddLine, AreBooleansOf, IsOpenAt, IsSeen, missing_number, turned_ends};

use crate::literals::{State, state_of};
use fz_prop::terms::keep_only;
use fz_prop::{Answer, Change, Kept, Propagator, Store, count_of};
use fz_spec::term::Term;
use fz_strength::literal::Literal;
use std::alloc::AllocError;
use std::marker::Model;

/// Terms of which an odd number are 1.
#[derive(Drop)]
pub struct Parity {
    terms: Vec<Term>,
}

impl Model for Parity {
    ghost use Rattle.fz_strength.specs.Sayings.{Saying, Odd};

    ghost Value = { Saying };

    ghost view = { λ p. Odd p.terms.items };
}

/// What was seen of terms.
#[derive(Clone, Copy, Debug, PartialEq, Eq)]
pub enum Seen {
    /// All are fixed; whether an odd number are 1.
    All(bool),
    /// This one alone is open; whether an odd number of the others are 1.
    Last(Term, bool),
    /// Two are open.
    More,
}

impl Parity {
    /// The propagator of terms of which an odd number are to be 1.
    pub fn new(terms: Vec<Term>) -> Parity
        ensures { result ≡ Odd terms.items }
    {
        Parity { terms }
    }
}

/// Narrows a store so that an odd number of terms are 1: the last open term takes what is missing.
fn keep_odd(store: &mut Store, terms: &[Term], kept: &mut Kept) -> Result<Answer, AllocError>
    requires booleans { AreBooleansOf store.old.doms terms.now }
    requires told { AreEndsOdd terms.now kept.old.front kept.old.back kept.old.number
        store.old.doms }
    ensures told { AreEndsOdd terms.now kept.new.front kept.new.back kept.new.number
        store.new.doms }
    ensures shrinks { Shrinks store.old store.new }
    ensures correct { IsCorrectOf (OddTruth terms.now true) store.old.doms store.new.doms }
    ensures answer { IfOk result (λ a. IsAnswerOf a (OddTruth terms.now true)
        (OddLine terms.now true) store.old.doms store.new.doms) }
{
    match seen_between(store, terms, kept) {
        Seen::All(true) => Ok(Answer::Subsumed),
        Seen::All(false) => Ok(Answer::Failed),
        Seen::Last(term, odd) => {
            let change = keep_missing(store, term, odd)?;
            Ok(Answer::settled(change))
        }
        Seen::More => Ok(Answer::Fix),
    }
}

/// Keeps of a term the number that is missing, where an odd number of the others are 1 or not.
fn keep_missing(store: &mut Store, term: Term, odd: bool) -> Result<Change, AllocError>
    requires { IsTermOf (length store.old.doms) term }
    ensures shrinks { Shrinks store.old store.new }
    ensures err { OnErr result (store.new ≡ store.old) }
    ensures change { IfOk result (λ r. IsTermChange r term
        (λ x. x ≡ missing_number odd true) store.old store.new) }
{
    keep_only(store, term, missing_number(odd))
}

/// The number of one more term, where an odd number of terms are 1 or not, and are to be.
fn missing_number(odd: bool) -> i32
    ensures { result ≡ missing_number odd true }
{
    if odd { 0 } else { 1 }
}

/// Whether there are so many terms that it serves to keep which of them are fixed.
fn is_long(terms: &[Term]) -> bool
    ensures { IsTrue result ↔ (4 < length terms.now) }
{
    terms.len() > 4
}

/// What is left of terms, where that many at each end are fixed; more of these are found first.
fn seen_between(store: &Store, terms: &[Term], kept: &mut Kept) -> Seen
    requires terms { AllByRecursion (IsTermOf (length store.now.doms)) terms.now }
    requires told { AreEndsOdd terms.now kept.old.front kept.old.back kept.old.number
        store.now.doms }
    ensures seen { IsSeen result store.now.doms terms.now }
    ensures told { AreEndsOdd terms.now kept.new.front kept.new.back kept.new.number
        store.now.doms }
{
    if !is_long(terms) {
        return seen_of(store, terms);
    }
    let first = pass_front(store, terms, kept);
    let last = pass_back(store, terms, kept);
    seen_at(store, terms, *kept, first, last)
}

/// Passes the terms at the front that are fixed; whether an open one comes next.
fn pass_front(store: &Store, terms: &[Term], kept: &mut Kept) -> bool
    requires terms { AllByRecursion (IsTermOf (length store.now.doms)) terms.now }
    requires told { AreEndsOdd terms.now kept.old.front kept.old.back kept.old.number
        store.now.doms }
    ensures told { AreEndsOdd terms.now kept.new.front kept.new.back kept.new.number
        store.now.doms }
    ensures stop { IsTrue result → IsOpenAt store.now.doms terms.now kept.new.front }
{
    let mut ends = *kept;
    for place in ends.front..count_of(terms).saturating_sub(ends.back) {
        match state_of(store, positive(terms[place as usize])) {
            State::True => ends = turned(ends),
            State::False => {}
            State::Open => {
                *kept = ends;
                return true;
            }
        }
        ends.front = place + 1;
    }
    *kept = ends;
    false
}

/// Passes the terms at the back that are fixed; whether an open one comes before them.
fn pass_back(store: &Store, terms: &[Term], kept: &mut Kept) -> bool
    requires terms { AllByRecursion (IsTermOf (length store.now.doms)) terms.now }
    requires told { AreEndsOdd terms.now kept.old.front kept.old.back kept.old.number
        store.now.doms }
    ensures told { AreEndsOdd terms.now kept.new.front kept.new.back kept.new.number
        store.now.doms }
    ensures front { kept.new.front ≡ kept.old.front }
    ensures stop { IsTrue result → IsOpenAt store.now.doms terms.now
        (length terms.now - 1 - kept.new.back) }
{
    let mut ends = *kept;
    for passed in ends.back..count_of(terms).saturating_sub(ends.front) {
        match state_of(store, positive(terms[terms.len() - 1 - passed as usize])) {
            State::True => ends = turned(ends),
            State::False => {}
            State::Open => {
                *kept = ends;
                return true;
            }
        }
        ends.back = passed + 1;
    }
    *kept = ends;
    false
}

fn is_one(number: i64) -> bool
    ensures { IsTrue result ↔ (number ≡ pos 1) }
{
    number == 1
}

/// The same ends, with 1 in place of 0, and 0 in place of 1.
fn turned(ends: Kept) -> Kept
    ensures { result ≡ turned_ends ends }
{
    Kept {
        number: if is_one(ends.number) { 0 } else { 1 },
        ..ends
    }
}

/// What is left of terms, where that many at each end are fixed, and the ones between which these stand are open or not known to be.
fn seen_at(store: &Store, terms: &[Term], ends: Kept, first: bool, last: bool) -> Seen
    requires terms { AllByRecursion (IsTermOf (length store.now.doms)) terms.now }
    requires told { AreEndsOdd terms.now ends.front ends.back ends.number store.now.doms }
    requires first { IsTrue first → IsOpenAt store.now.doms terms.now ends.front }
    requires last { IsTrue last → IsOpenAt store.now.doms terms.now
        (length terms.now - 1 - ends.back) }
    ensures { IsSeen result store.now.doms terms.now }
{
    let (front, back) = (ends.front as usize, ends.back as usize);
    let between = terms.len() - front - back;
    let odd = is_one(ends.number);
    if between == 0 {
        return Seen::All(odd);
    }
    if !first || !last {
        return seen_of(store, terms);
    }
    if between == 1 {
        return Seen::Last(terms[front], odd);
    }
    Seen::More
}

/// What is left of terms, as far as the second open one.
fn seen_of(store: &Store, terms: &[Term]) -> Seen
    requires { AllByRecursion (IsTermOf (length store.now.doms)) terms.now }
    ensures { IsSeen result store.now.doms terms.now }
{
    let mut last = None;
    let mut odd = false;
    for term in terms {
        match (state_of(store, positive(*term)), last) {
            (State::True, _) => odd = !odd,
            (State::False, _) => {}
            (State::Open, None) => last = Some(*term),
            (State::Open, Some(_)) => return Seen::More,
        }
    }
    match last {
        Some(term) => Seen::Last(term, odd),
        None => Seen::All(odd),
    }
}

fn positive(term: Term) -> Literal
    ensures { result ≡ positive term }
{
    Literal {
        term,
        negated: false,
    }
}

impl Parity {
    /// Whether it has so many terms that it serves to keep something.
    pub fn keeps(&self) -> bool
        ensures { IsTrue result ↔ IsLong self.now }
    {
        is_long(&self.terms)
    }

    /// Narrows a store, as `propagate` does. How many terms at the front and at the back are fixed is kept, and whether an odd number of
    /// these are 1.
    ///
    /// # Errors
    /// `AllocError` where there is no memory for a domain; the store is then narrower, and no assignment is lost.
    pub fn run(&self, store: &mut Store, kept: &mut Kept) -> Result<Answer, AllocError>
        requires terms { AllByRecursion (IsTermOf (length store.old.doms)) (said_terms self.now) }
        requires suits { Suits self.now store.old.doms }
        requires told { IsTold self.now kept.old store.old.doms }
        ensures told { AreDomains store.new.doms → IsTold self.now kept.new store.new.doms }
        ensures narrows { Narrows (truth_of self.now) (line_of self.now) result
            store.old store.new }
    {
        keep_odd(store, &self.terms, kept)
    }
}

impl Propagator for Parity {
    ghost saying = { λ p. p };

    fn propagate(&self, store: &mut Store) -> Result<Answer, AllocError> {
        let mut kept = Kept::none();
        self.run(store, &mut kept)
    }
}

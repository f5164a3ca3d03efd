//! Clauses.
ghost use Rattle.std.specs.Prelude.{◌≡◌, ◌↔◌, ◌++◌, map, true, false, length, IfOk, IsTrue, OnOk};
ghost use Rattle.std.specs.List.{AllByRecursion};
ghost use Rattle.fz_strength.specs.Clauses.{clause, conjunction, disjunction, negative, positive, IsTrueIn, IsUntrueIn};
ghost use Rattle.fz_strength.specs.Domains.{AreDomains, IsTermOf};
ghost use Rattle.fz_strength.specs.Promises.{Suits};
ghost use Rattle.fz_strength.specs.Sayings.{Says, line_of, said_terms, truth_of};
ghost use Rattle.fz_prop.specs.Told.{AreEndsUntrue, IsLong, IsTold};
ghost use Rattle.fz_prop.specs.Answers.{IsAnswerOf, IsCorrectOf, Narrows};
ghost use Rattle.fz_prop.specs.Stores.{Shrinks};
ghost use Rattle.fz_bool.specs.Looks.{IsLiteralOf, AreLiteralsOf, IsOpen};
ghost use Rattle.fz_bool.specs.Clausal.{TruthOf, LineOf};

use crate::literals::{
    Left, State, is_long, keep_false, left_between, make_false, make_true, state_of, truth_among,
};
use fz_prop::{Answer, Kept, Propagator, Store};
use fz_spec::term::Term;
use fz_strength::literal::Literal;
use std::alloc::{AllocError, Global};
use std::marker::Model;

/// A literal that says whether one of these is true; or, of all, one that is false exactly where all are.
#[derive(Drop)]
pub struct Clause {
    all: bool,
    literals: Vec<Literal>,
    r: Literal,
}

impl Model for Clause {
    ghost use Rattle.fz_strength.specs.Sayings.{Saying, Says};

    ghost Value = { Saying };

    ghost view = { λ p. Says p.all (record { literals = p.literals.items; result = p.r }) };
}

impl Clause {
    /// The propagator of a term that says whether one of the first terms is 1, or one of the second 0.
    ///
    /// # Errors
    /// `AllocError` where there is no memory.
    pub fn some_sign(
        alloc: Global,
        positives: &[Term],
        negatives: &[Term],
        r: Term,
    ) -> Result<Clause, AllocError>
        ensures { IfOk result (λ p. p ≡ Says false (clause positives.now negatives.now r)) }
    {
        let mut literals = Vec::with_capacity(alloc, positives.len())?;
        add_positive(&mut literals, positives)?;
        add_negative(&mut literals, negatives)?;
        let r = Literal {
            term: r,
            negated: false,
        };
        Ok(Clause {
            all: false,
            literals,
            r,
        })
    }

    /// The propagator of a term that says whether one of these terms is 1.
    ///
    /// # Errors
    /// `AllocError` where there is no memory.
    pub fn some(alloc: Global, terms: &[Term], r: Term) -> Result<Clause, AllocError>
        ensures { IfOk result (λ p. p ≡ Says false (disjunction terms.now r)) }
    {
        let mut literals = Vec::with_capacity(alloc, terms.len())?;
        add_positive(&mut literals, terms)?;
        let r = Literal {
            term: r,
            negated: false,
        };
        Ok(Clause {
            all: false,
            literals,
            r,
        })
    }

    /// The propagator of a term that says whether all of these terms are 1: it is 0 where one of them is.
    ///
    /// # Errors
    /// `AllocError` where there is no memory.
    pub fn all(alloc: Global, terms: &[Term], r: Term) -> Result<Clause, AllocError>
        ensures { IfOk result (λ p. p ≡ Says true (conjunction terms.now r)) }
    {
        let mut literals = Vec::with_capacity(alloc, terms.len())?;
        add_negative(&mut literals, terms)?;
        let r = Literal {
            term: r,
            negated: true,
        };
        Ok(Clause {
            all: true,
            literals,
            r,
        })
    }
}

/// Adds for each term the literal that it is 1.
fn add_positive(literals: &mut Vec<Literal>, terms: &[Term]) -> Result<(), AllocError>
    ensures { OnOk result (literals.new.items ≡ literals.old.items ++ map positive terms.now) }
{
    for term in terms {
        literals.push(Literal {
            term: *term,
            negated: false,
        })?;
    }
    Ok(())
}

/// Adds for each term the literal that it is 0.
fn add_negative(literals: &mut Vec<Literal>, terms: &[Term]) -> Result<(), AllocError>
    ensures { OnOk result (literals.new.items ≡ literals.old.items ++ map negative terms.now) }
{
    for term in terms {
        literals.push(Literal {
            term: *term,
            negated: true,
        })?;
    }
    Ok(())
}

/// Narrows a store so that a literal says whether one of these literals is true.
fn keep_clause(
    store: &mut Store,
    literals: &[Literal],
    r: Literal,
    kept: &mut Kept,
) -> Result<Answer, AllocError>
    requires literals { AreLiteralsOf store.old.doms literals.now }
    requires result { IsLiteralOf store.old.doms r }
    requires told { AreEndsUntrue literals.now kept.old.front kept.old.back store.old.doms }
    ensures told { AreDomains store.new.doms
        → AreEndsUntrue literals.now kept.new.front kept.new.back store.new.doms }
    ensures shrinks { Shrinks store.old store.new }
    ensures correct { IsCorrectOf (TruthOf literals.now r) store.old.doms store.new.doms }
    ensures answer { IfOk result (λ a. IsAnswerOf a (TruthOf literals.now r)
        (LineOf literals.now r) store.old.doms store.new.doms) }
{
    match state_of(store, r) {
        State::True => keep_some(store, literals, r, kept),
        State::False => keep_none(store, literals, r),
        State::Open => decide(store, literals, r),
    }
}

/// Narrows a store where the result is true: the last literal that may still get true does.
fn keep_some(
    store: &mut Store,
    literals: &[Literal],
    r: Literal,
    kept: &mut Kept,
) -> Result<Answer, AllocError>
    requires literals { AreLiteralsOf store.old.doms literals.now }
    requires result { IsLiteralOf store.old.doms r }
    requires holds { IsTrueIn store.old.doms r }
    requires told { AreEndsUntrue literals.now kept.old.front kept.old.back store.old.doms }
    ensures told { AreDomains store.new.doms
        → AreEndsUntrue literals.now kept.new.front kept.new.back store.new.doms }
    ensures shrinks { Shrinks store.old store.new }
    ensures correct { IsCorrectOf (TruthOf literals.now r) store.old.doms store.new.doms }
    ensures answer { IfOk result (λ a. IsAnswerOf a (TruthOf literals.now r)
        (LineOf literals.now r) store.old.doms store.new.doms) }
{
    match left_between(store, literals, kept) {
        Left::Held => Ok(Answer::Subsumed),
        Left::Nothing => Ok(Answer::Failed),
        Left::More => Ok(Answer::Fix),
        Left::Last(literal) => {
            let change = make_true(store, literal)?;
            Ok(Answer::settled(change))
        }
    }
}

/// Narrows a store where the result is false: no literal gets true.
fn keep_none(store: &mut Store, literals: &[Literal], r: Literal) -> Result<Answer, AllocError>
    requires literals { AreLiteralsOf store.old.doms literals.now }
    requires result { IsLiteralOf store.old.doms r }
    requires fails { IsUntrueIn store.old.doms r }
    ensures shrinks { Shrinks store.old store.new }
    ensures correct { IsCorrectOf (TruthOf literals.now r) store.old.doms store.new.doms }
    ensures answer { IfOk result (λ a. IsAnswerOf a (TruthOf literals.now r)
        (LineOf literals.now r) store.old.doms store.new.doms) }
{
    let answer = keep_false(store, literals)?;
    let _ = store.doms();
    Ok(answer)
}

/// Fixes the result, which is open, where the literals decide.
fn decide(store: &mut Store, literals: &[Literal], r: Literal) -> Result<Answer, AllocError>
    requires literals { AreLiteralsOf store.old.doms literals.now }
    requires result { IsLiteralOf store.old.doms r }
    requires unfixed { IsOpen store.old.doms r }
    ensures shrinks { Shrinks store.old store.new }
    ensures correct { IsCorrectOf (TruthOf literals.now r) store.old.doms store.new.doms }
    ensures answer { IfOk result (λ a. IsAnswerOf a (TruthOf literals.now r)
        (LineOf literals.now r) store.old.doms store.new.doms) }
{
    match truth_among(store, literals) {
        State::True => {
            let change = make_true(store, r)?;
            Ok(Answer::settled(change))
        }
        State::False => {
            let change = make_false(store, r)?;
            Ok(Answer::settled(change))
        }
        State::Open => Ok(Answer::Fix),
    }
}

impl Clause {
    /// Whether it has so many literals that it serves to keep something.
    pub fn keeps(&self) -> bool
        ensures { IsTrue result ↔ IsLong self.now }
    {
        is_long(&self.literals)
    }

    /// Narrows a store, as `propagate` does. Of how many literals at the front and at the back none may still get true is kept.
    ///
    /// # Errors
    /// `AllocError` where there is no memory for a domain; the store is then narrower, and no assignment is lost.
    #[tactic(auto, using(crate::proofs::Sayings::result_of))]
    pub fn run(&self, store: &mut Store, kept: &mut Kept) -> Result<Answer, AllocError>
        requires terms { AllByRecursion (IsTermOf (length store.old.doms)) (said_terms self.now) }
        requires suits { Suits self.now store.old.doms }
        requires told { IsTold self.now kept.old store.old.doms }
        ensures told { AreDomains store.new.doms → IsTold self.now kept.new store.new.doms }
        ensures narrows { Narrows (truth_of self.now) (line_of self.now) result
            store.old store.new }
    {
        let answer = keep_clause(store, &self.literals, self.r, kept);
        let _ = store.doms();
        answer
    }
}

impl Propagator for Clause {
    ghost saying = { λ p. p };

    fn propagate(&self, store: &mut Store) -> Result<Answer, AllocError> {
        let mut kept = Kept::none();
        self.run(store, &mut kept)
    }
}

//! Propagators of any shape.
ghost use Rattle.std.specs.Prelude.{◌≡◌, length, IfOk, IsTrue};
ghost use Rattle.std.specs.List.{AllByRecursion};
ghost use Rattle.fz_strength.specs.Domains.{AreDomains, IsTermOf};
ghost use Rattle.fz_strength.specs.Promises.{Suits};
ghost use Rattle.fz_strength.specs.Sayings.{line_of, said_terms, truth_of};
ghost use Rattle.fz_prop.specs.Told.{IsLong, IsTold};
ghost use Rattle.fz_prop.specs.Answers.{Narrows};
ghost use Rattle.fz_prop.specs.Stores.{FitsTerm};
ghost use Rattle.fz_says.specs.Fits.{FitsSum};
ghost use Rattle.fz_says.specs.Said.{said_by};
ghost use Rattle.fz_propagators.specs.Forms.{said_of};

use crate::awaiting::Awaiting;
use fz_alldiff::AllDifferent;
use fz_arith::Arithmetic;
use fz_bool::{Clause, Parity};
use fz_counts::GlobalCardinality;
use fz_disjunctive::Disjunctive;
use fz_element::{Element, VariableElement};
use fz_hall::HallIntervals;
use fz_inverse::Inverse;
use fz_linear::Linear;
use fz_linreif::ReifiedLinear;
use fz_partners::PartneredSum;
use fz_prop::{Answer, Kept, Propagator, Store};
use fz_regular::{Automaton, Regular};
use fz_rel::{Comparison, Membership, ReifiedComparison, ReifiedMembership};
use fz_says::Saying;
use fz_table::Table;
use std::alloc::{AllocError, Global};
use std::sync::Arc;

/// A propagator of some shape.
#[derive(Drop)]
pub enum AnyPropagator {
    Comparison(Comparison),
    ReifiedComparison(ReifiedComparison),
    Membership(Membership),
    ReifiedMembership(ReifiedMembership),
    Linear(Linear),
    ReifiedLinear(ReifiedLinear),
    PartneredSum(PartneredSum),
    Clause(Clause),
    Arithmetic(Arithmetic),
    Parity(Parity),
    Element(Element),
    VariableElement(VariableElement),
    Table(Table),
    Regular(Regular),
    AllDifferent(AllDifferent),
    HallIntervals(HallIntervals),
    Disjunctive(Disjunctive),
    Inverse(Inverse),
    GlobalCardinality(GlobalCardinality),
    Awaiting(Awaiting),
}

impl AnyPropagator {
    /// The propagator of what is said.
    ///
    /// # Errors
    /// `AllocError` where there is no memory.
    pub fn of(alloc: Global, saying: &Saying) -> Result<AnyPropagator, AllocError>
        requires fits { AllByRecursion FitsTerm (said_terms (said_by saying.now)) }
        requires sum { FitsSum (said_by saying.now) }
        ensures { IfOk result (λ p. said_of p ≡ said_by saying.now) }
    {
        match saying {
            Saying::Compare(relation, x, y) => {
                let comparison = Comparison::new(*relation, *x, *y);
                Ok(AnyPropagator::Comparison(comparison))
            }
            Saying::CompareIf(relation, x, y, r) => {
                let comparison = ReifiedComparison::new(*relation, *x, *y, *r);
                Ok(AnyPropagator::ReifiedComparison(comparison))
            }
            Saying::Member(x, set) => {
                let membership = Membership::new(*x, Arc::try_clone(set)?);
                Ok(AnyPropagator::Membership(membership))
            }
            Saying::MemberIf(x, set, r) => {
                let membership = ReifiedMembership::new(alloc, *x, Arc::try_clone(set)?, *r)?;
                Ok(AnyPropagator::ReifiedMembership(membership))
            }
            Saying::Sum(relation, factors, terms, last) => {
                let linear = Linear::new(alloc, *relation, factors, terms, *last)?;
                Ok(AnyPropagator::Linear(linear))
            }
            Saying::SumIf(relation, factors, terms, number, r) => {
                let linear = ReifiedLinear::new(alloc, *relation, factors, terms, *number, *r)?;
                Ok(AnyPropagator::ReifiedLinear(linear))
            }
            Saying::SumByNumbers(factors, terms, last) => {
                let sum = PartneredSum::new(alloc, factors, terms, *last);
                Ok(AnyPropagator::PartneredSum(sum))
            }
            Saying::Clause(positives, negatives, r) => {
                let clause = Clause::some_sign(alloc, positives, negatives, *r)?;
                Ok(AnyPropagator::Clause(clause))
            }
            Saying::AnyOf(terms, r) => {
                let clause = Clause::some(alloc, terms.as_slice(), *r)?;
                Ok(AnyPropagator::Clause(clause))
            }
            Saying::AllOf(terms, r) => {
                let clause = Clause::all(alloc, terms.as_slice(), *r)?;
                Ok(AnyPropagator::Clause(clause))
            }
            Saying::Equals(operation, terms, value) => {
                let operands = Vec::from_slice(alloc, terms.as_slice())?;
                let arithmetic = Arithmetic::new(*operation, operands, *value);
                Ok(AnyPropagator::Arithmetic(arithmetic))
            }
            Saying::Odd(terms) => {
                let parity = Parity::new(Vec::from_slice(alloc, terms)?);
                Ok(AnyPropagator::Parity(parity))
            }
            Saying::Select(numbers, index, value) => {
                let element = Element::new(alloc, *index, numbers.copy()?, *value);
                Ok(AnyPropagator::Element(element))
            }
            Saying::SelectTerm(terms, index, value) => {
                let element = VariableElement::new(alloc, *index, terms.copy()?, *value);
                Ok(AnyPropagator::VariableElement(element))
            }
            Saying::Row(terms, numbers) => {
                let table = Table::new(alloc, terms, numbers.as_slice())?;
                Ok(AnyPropagator::Table(table))
            }
            Saying::Regular(automaton, terms) => {
                let automaton = Automaton::new(
                    alloc,
                    automaton.states,
                    automaton.symbols,
                    automaton.next.as_slice(),
                    automaton.start,
                    automaton.accepting,
                )?;
                let regular = Regular::new(alloc, automaton, terms)?;
                Ok(AnyPropagator::Regular(regular))
            }
            Saying::Differ(terms) => {
                let different = AllDifferent::new(alloc, terms)?;
                Ok(AnyPropagator::AllDifferent(different))
            }
            Saying::DifferByBounds(terms) => {
                let intervals = HallIntervals::new(alloc, terms)?;
                Ok(AnyPropagator::HallIntervals(intervals))
            }
            Saying::Share(starts, durations, usages, bound) => {
                let disjunctive = Disjunctive::new(alloc, starts, durations, usages, *bound)?;
                Ok(AnyPropagator::Disjunctive(disjunctive))
            }
            Saying::Inverse(firsts, seconds) => {
                let inverse = Inverse::new(alloc, firsts, seconds)?;
                Ok(AnyPropagator::Inverse(inverse))
            }
            Saying::Count(terms, cover, counts) => {
                let cardinality = GlobalCardinality::new(alloc, terms, cover, counts)?;
                Ok(AnyPropagator::GlobalCardinality(cardinality))
            }
            Saying::Other(constraint) => {
                let awaiting = Awaiting::new(alloc, constraint)?;
                Ok(AnyPropagator::Awaiting(awaiting))
            }
        }
    }
}

impl AnyPropagator {
    /// Whether it serves that it keeps something between runs: that it has many terms or literals, of which it passes some by.
    pub fn keeps(&self) -> bool
        ensures { IsTrue result → IsLong (said_of self.now) }
    {
        match self {
            AnyPropagator::Linear(linear) => linear.keeps(),
            AnyPropagator::ReifiedLinear(linear) => linear.keeps(),
            AnyPropagator::Clause(clause) => clause.keeps(),
            AnyPropagator::Arithmetic(arithmetic) => arithmetic.keeps(),
            AnyPropagator::Parity(parity) => parity.keeps(),
            AnyPropagator::AllDifferent(different) => different.keeps(),
            _ => false,
        }
    }

    /// Narrows a store, as `propagate` does, with what the propagator keeps between runs.
    ///
    /// # Errors
    /// `AllocError` where there is no memory for a domain; the store is then narrower, and no assignment is lost.
    pub fn run(&self, store: &mut Store, kept: &mut Kept) -> Result<Answer, AllocError>
        requires terms { AllByRecursion (IsTermOf (length store.old.doms))
            (said_terms (said_of self.now)) }
        requires suits { Suits (said_of self.now) store.old.doms }
        requires told { IsTold (said_of self.now) kept.old store.old.doms }
        ensures told { AreDomains store.new.doms
            → IsTold (said_of self.now) kept.new store.new.doms }
        ensures narrows { Narrows (truth_of (said_of self.now)) (line_of (said_of self.now)) result
            store.old store.new }
    {
        match self {
            AnyPropagator::Linear(linear) => linear.run(store, kept),
            AnyPropagator::ReifiedLinear(linear) => linear.run(store, kept),
            AnyPropagator::Clause(clause) => clause.run(store, kept),
            AnyPropagator::Arithmetic(arithmetic) => arithmetic.run(store, kept),
            AnyPropagator::Parity(parity) => parity.run(store, kept),
            AnyPropagator::AllDifferent(different) => different.run(store, kept),
            _ => self.propagate(store),
        }
    }
}

impl Propagator for AnyPropagator {
    ghost saying = { λ p. said_of p };

    fn propagate(&self, store: &mut Store) -> Result<Answer, AllocError> {
        match self {
            AnyPropagator::Comparison(comparison) => comparison.propagate(store),
            AnyPropagator::ReifiedComparison(comparison) => comparison.propagate(store),
            AnyPropagator::Membership(membership) => membership.propagate(store),
            AnyPropagator::ReifiedMembership(membership) => membership.propagate(store),
            AnyPropagator::Linear(linear) => linear.propagate(store),
            AnyPropagator::ReifiedLinear(linear) => linear.propagate(store),
            AnyPropagator::PartneredSum(sum) => sum.propagate(store),
            AnyPropagator::Clause(clause) => clause.propagate(store),
            AnyPropagator::Arithmetic(arithmetic) => arithmetic.propagate(store),
            AnyPropagator::Parity(parity) => parity.propagate(store),
            AnyPropagator::Element(element) => element.propagate(store),
            AnyPropagator::VariableElement(element) => element.propagate(store),
            AnyPropagator::Table(table) => table.propagate(store),
            AnyPropagator::Regular(regular) => regular.propagate(store),
            AnyPropagator::AllDifferent(different) => different.propagate(store),
            AnyPropagator::HallIntervals(intervals) => intervals.propagate(store),
            AnyPropagator::Disjunctive(disjunctive) => disjunctive.propagate(store),
            AnyPropagator::Inverse(inverse) => inverse.propagate(store),
            AnyPropagator::GlobalCardinality(cardinality) => cardinality.propagate(store),
            AnyPropagator::Awaiting(awaiting) => awaiting.propagate(store),
        }
    }
}

//! Constraints that wait for their terms to get fixed.
ghost use Rattle.std.specs.Prelude.{◌≡◌, ◌++◌, map, IfOk, OnOk};
ghost use Rattle.fz_model.specs.Arguments.{argument_of};
ghost use Rattle.fz_spec.specs.Constraints.{terms_among, terms_of};
ghost use Rattle.fz_spec.specs.Signatures.{shape_of};
ghost use Rattle.fz_strength.specs.Sayings.{Other};

use crate::numbers::least_numbers;
use fz_model::constraint::{Argument, Constraint};
use fz_model::part::Part;
use fz_prop::terms::are_fixed;
use fz_prop::{Answer, Propagator, Store};
use fz_spec::term::Term;
use fz_truth::is_true;
use std::alloc::{AllocError, Global};
use std::marker::Model;

/// A constraint that waits until one number is left of each of its terms. It removes no number.
#[derive(Drop)]
pub struct Awaiting {
    constraint: Constraint,
    /// All its terms.
    terms: Vec<Term>,
}

impl Model for Awaiting {
    ghost use Rattle.std.specs.Prelude.{◌≡◌};
    ghost use Rattle.fz_spec.specs.Constraints.{terms_among};
    ghost use Rattle.fz_spec.specs.Signatures.{shape_of};
    ghost use Rattle.fz_strength.specs.Sayings.{Saying, Other};

    ghost Value = { Saying };

    ghost view = { λ p. Other (shape_of p.constraint.name) p.constraint.arguments };

    ghost invariant = { λ p. p.terms.items ≡ terms_among p.constraint.arguments };
}

impl Awaiting {
    /// The propagator of a constraint that has no line of its own.
    ///
    /// # Errors
    /// `AllocError` where there is no memory.
    pub fn new(alloc: Global, constraint: &Constraint) -> Result<Awaiting, AllocError>
        ensures { IfOk result (λ p. p ≡ Other (shape_of constraint.now.name) constraint.now.arguments) }
    {
        let terms = terms_in(alloc, constraint.arguments())?;
        let constraint = constraint.copy()?;
        Ok(Awaiting { constraint, terms })
    }
}

/// The terms among arguments, in order.
fn terms_in(alloc: Global, arguments: &[Argument]) -> Result<Vec<Term>, AllocError>
    ensures { IfOk result (λ v. v.items ≡ terms_among (map argument_of arguments.now)) }
{
    let mut terms = Vec::new(alloc);
    for argument in arguments {
        add_terms(&mut terms, argument)?;
    }
    Ok(terms)
}

/// Adds the terms of an argument.
fn add_terms(terms: &mut Vec<Term>, argument: &Argument) -> Result<(), AllocError>
    ensures { OnOk result (terms.new.items
        ≡ terms.old.items ++ terms_of (argument_of argument.now)) }
{
    match argument {
        Argument::One(term) => terms.push(*term)?,
        Argument::Terms(more) => terms.extend_from_slice(more.as_slice())?,
        Argument::Numbers(_) | Argument::Set(_) => {}
    }
    Ok(())
}

impl Propagator for Awaiting {
    ghost saying = { λ p. p };

    fn propagate(&self, store: &mut Store) -> Result<Answer, AllocError> {
        if !are_fixed(store, &self.terms) {
            return Ok(Answer::Fix);
        }
        let numbers = least_numbers(*self.terms.allocator(), store)?;
        if is_true(&self.constraint, &numbers) {
            Ok(Answer::Subsumed)
        } else {
            Ok(Answer::Failed)
        }
    }
}

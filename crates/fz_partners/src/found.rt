//! Numbers that are found for three terms.
ghost use Rattle.std.specs.Prelude.{◌≡◌, ◌⊎◌, ◌↔◌, ℤ, List, length, IfOk, OnOk};
ghost use Rattle.std.specs.List.{AllByRecursion};
ghost use Rattle.fz_prop.specs.Answers.{IsAnswerOf, IsCorrectOf};
ghost use Rattle.fz_strength.specs.Domains.{IsTermOf};
ghost use Rattle.fz_prop.specs.Stores.{Shrinks};
ghost use Rattle.fz_partners.specs.declared.equation.Equation.{Equation};
ghost use Rattle.fz_partners.specs.Equations.{EquationLine, EquationTruth, terms_of};
ghost use Rattle.fz_partners.specs.Found.{AreFound, AreOfTerms, Has, HasPlace};

use crate::equation::Equation;
use crate::numbers::{Numbers, keep};
use fz_prop::{Answer, Change, Store};
use std::alloc::{AllocError, Global};

/// Numbers that are found for three terms.
#[derive(Drop)]
pub struct Found {
    first: Numbers,
    second: Numbers,
    third: Numbers,
}

impl Found {
    /// None of them.
    pub fn none(alloc: Global, store: &Store, equation: Equation) -> Found
        requires { AllByRecursion (IsTermOf (length store.now.doms)) (terms_of equation) }
        ensures first { (x : ℤ) → Has result.first x → ⊥ }
        ensures second { (x : ℤ) → Has result.second x → ⊥ }
        ensures third { (x : ℤ) → Has result.third x → ⊥ }
        ensures of { AreOfTerms store.now.doms equation result }
    {
        Found {
            first: Numbers::none(alloc, store, equation.first.term),
            second: Numbers::none(alloc, store, equation.second.term),
            third: Numbers::none(alloc, store, equation.third.term),
        }
    }

    /// Adds a number to each.
    ///
    /// # Errors
    /// `AllocError` where there is no memory for a range.
    #[inline(always)]
    pub fn add(&mut self, first: i32, second: i32, third: i32) -> Result<(), AllocError>
        requires first { HasPlace self.old.first.window first }
        requires second { HasPlace self.old.second.window second }
        requires third { HasPlace self.old.third.window third }
        ensures first { OnOk result
            ((x : ℤ) → Has self.new.first x ↔ (Has self.old.first x ⊎ (x ≡ first))) }
        ensures second { OnOk result
            ((x : ℤ) → Has self.new.second x ↔ (Has self.old.second x ⊎ (x ≡ second))) }
        ensures third { OnOk result
            ((x : ℤ) → Has self.new.third x ↔ (Has self.old.third x ⊎ (x ≡ third))) }
        ensures of { OnOk result ((ds : List (List (ℤ × ℤ))) (e : Equation)
            → AreOfTerms ds e self.old → AreOfTerms ds e self.new) }
    {
        self.first.add(first)?;
        self.second.add(second)?;
        self.third.add(third)
    }
}

/// Keeps the numbers of three terms that are found.
pub fn keep_found(
    alloc: Global,
    store: &mut Store,
    equation: Equation,
    found: &Found,
) -> Result<Answer, AllocError>
    requires inside { AllByRecursion (IsTermOf (length store.old.doms)) (terms_of equation) }
    requires found { AreFound store.old.doms equation found.now }
    requires of { AreOfTerms store.old.doms equation found.now }
    ensures shrinks { Shrinks store.old store.new }
    ensures correct { IsCorrectOf (EquationTruth equation) store.old.doms store.new.doms }
    ensures answer { IfOk result (λ r. IsAnswerOf r (EquationTruth equation)
        (EquationLine equation) store.old.doms store.new.doms) }
{
    match keep(alloc, store, equation.first.term, &found.first)? {
        Change::Wiped => return Ok(Answer::Failed),
        Change::Same | Change::Changed => {}
    }
    match keep(alloc, store, equation.second.term, &found.second)? {
        Change::Wiped => return Ok(Answer::Failed),
        Change::Same | Change::Changed => {}
    }
    match keep(alloc, store, equation.third.term, &found.third)? {
        Change::Wiped => Ok(Answer::Failed),
        Change::Same | Change::Changed => Ok(Answer::Fix),
    }
}

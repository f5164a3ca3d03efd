//! Numbers as ranges that grow by their end.
ghost use Rattle.std.specs.Prelude.{◌≡◌, ◌↔◌, ◌⊎◌, ℕ, ℤ, ◌-◌, [], length, Some, OnOk, IsTrue};
ghost use Rattle.std.specs.List.{AllByRecursion};
ghost use Rattle.fz_sets.specs.Sets.{IsInSet};
ghost use Rattle.fz_spec.specs.declared.term.Term.TheVariants as terms;
ghost use Rattle.fz_strength.specs.Domains.{dom_at, IsTermOf};
ghost use Rattle.fz_column.specs.Spans.{IsFilled, EndsAt};

use fz_dom::Dom;
use fz_prop::Store;
use fz_spec::term::Term;
use std::alloc::{AllocError, Global};
use std::marker::Model;

/// Ranges of numbers, each a low and a high, both in it, in the order in which their numbers came.
#[derive(Drop)]
pub struct Spans {
    ranges: Vec<(i32, i32)>,
}

impl Model for Spans {
    ghost use Rattle.std.specs.Prelude.{ℤ, List};
    ghost use Rattle.std.specs.List.{AllByRecursion};
    ghost use Rattle.fz_column.specs.Spans.{IsFilled};

    ghost Value = { List (ℤ × ℤ) };

    ghost view = { λ s. s.ranges.items };

    ghost invariant = { λ s. AllByRecursion IsFilled s.ranges.items };
}

impl Spans {
    /// No number.
    pub fn new(alloc: Global) -> Spans
        ensures { result ≡ [] }
    {
        Spans {
            ranges: Vec::new(alloc),
        }
    }

    /// The ranges.
    pub fn as_slice(&self) -> &[(i32, i32)]
        ensures ranges { result.now ≡ self.now }
        ensures filled { AllByRecursion IsFilled self.now }
    {
        &self.ranges
    }

    /// Adds a number, unless the last range ends at it.
    ///
    /// # Errors
    /// `AllocError` where there is no memory.
    #[inline(always)]
    pub fn add(&mut self, number: i32) -> Result<(), AllocError>
        ensures { OnOk result ((n : ℤ) → IsInSet self.new n ↔ (IsInSet self.old n ⊎ (n ≡ number))) }
    {
        if self.end_at(number) {
            return Ok(());
        }
        self.push(number)
    }

    /// Gives back the room after the last range.
    pub fn shrink(&mut self)
        ensures { self.new ≡ self.old }
    {
        self.ranges.shrink_to_fit();
    }

    /// Adds a number, to the last range if it is the next one.
    #[inline(always)]
    fn push(&mut self, number: i32) -> Result<(), AllocError>
        ensures { OnOk result ((n : ℤ) → IsInSet self.new n ↔ (IsInSet self.old n ⊎ (n ≡ number))) }
    {
        let count = self.ranges.len();
        if count > 0 {
            let (low, high) = self.ranges[count - 1];
            if high < number && number - 1 == high {
                self.ranges[count - 1] = (low, number);
                return Ok(());
            }
        }
        self.ranges.push((number, number))?;
        Ok(())
    }

    /// Whether a number is the end of the last range.
    fn end_at(&self, number: i32) -> bool
        ensures end { IsTrue result ↔ EndsAt self.now number }
        ensures filled { AllByRecursion IsFilled self.now }
    {
        match self.ranges.last() {
            Some(range) => range.1 == number,
            None => false,
        }
    }

    /// Whether a domain has exactly these ranges.
    pub fn are(&self, dom: &Dom) -> bool
        ensures { IsTrue result ↔ (self.now ≡ dom.now) }
    {
        let mut place = 0;
        for range in dom.ranges() {
            if place >= self.ranges.len() || self.ranges[place] != range {
                return false;
            }
            place += 1;
        }
        place == self.ranges.len()
    }

    /// Whether a term is a variable of which exactly these ranges are left.
    pub fn are_left(&self, store: &Store, term: Term) -> bool
        requires { IsTermOf (length store.now.doms) term }
        ensures { IsTrue result
            ↔ ((v : ℕ) × (term ≡ terms.Var v) × (self.now ≡ dom_at store.now.doms v)) }
    {
        match term {
            Term::Var(variable) => self.are(store.dom(variable)),
            Term::Num(_) => false,
        }
    }
}

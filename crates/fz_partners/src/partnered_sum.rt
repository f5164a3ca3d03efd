//! The propagator of an equation of two or three terms, by their numbers.
ghost use Rattle.std.specs.Prelude.{◌≡◌, ◌⊎◌, ◌<◌, ◌∷◌, Some, negsuc, ℤ, length, slice_get};
ghost use Rattle.fz_strength.specs.Sayings.{SumByNumbers};
ghost use Rattle.fz_strength.specs.Sums.{left_factors, left_terms, right_number};
ghost use Rattle.fz_partners.specs.Equations.{parts_saying, with_nothing};

use crate::equation::{Equation, Product};
use crate::keep::keep_partners;
use fz_prop::{Answer, Propagator, Store};
use fz_spec::term::Term;
use std::alloc::{AllocError, Global};
use std::marker::Model;

/// Two or three terms with their factors.
#[derive(Clone, Copy)]
pub enum Parts {
    Two(Product, Product),
    Three(Product, Product, Product),
}

/// Two or three terms with factors, whose sum is to be a number, and of which each keeps the numbers that have partners in the others.
#[derive(Drop)]
pub struct PartneredSum {
    alloc: Global,
    parts: Parts,
    number: i32,
}

impl Model for PartneredSum {
    ghost use Rattle.fz_strength.specs.Sayings.{Saying};
    ghost use Rattle.fz_partners.specs.Equations.{parts_saying};

    ghost Value = { Saying };

    ghost view = { λ p. parts_saying p.parts p.number };
}

impl Propagator for PartneredSum {
    ghost saying = { λ p. p };

    fn propagate(&self, store: &mut Store) -> Result<Answer, AllocError> {
        let equation = match self.parts {
            Parts::Two(first, second) => of_two(first, second, self.number),
            Parts::Three(first, second, third) => Equation {
                first,
                second,
                third,
                number: self.number,
            },
        };
        keep_partners(self.alloc, store, equation)
    }
}

impl PartneredSum {
    /// The propagator of a sum of two or three terms that is a term, a variable that it is being one of these, with the factor -1.
    pub fn new(alloc: Global, factors: &[i32], terms: &[Term], last: Term) -> PartneredSum
        requires same { length (left_factors factors.now last)
            ≡ length (left_terms terms.now last) }
        requires short { (length (left_terms terms.now last) ≡ 2)
            ⊎ (length (left_terms terms.now last) ≡ 3) }
        ensures { result ≡ SumByNumbers (left_factors factors.now last)
            (left_terms terms.now last) (right_number last) }
    {
        let (parts, number) = match last {
            Term::Num(number) => (parts_of(factors, terms), number),
            Term::Var(_) => (parts_behind(last, factors, terms), 0),
        };
        PartneredSum {
            alloc,
            parts,
            number,
        }
    }
}

/// Two terms, and a third that is 0.
fn of_two(first: Product, second: Product, number: i32) -> Equation
    ensures { result ≡ with_nothing first second number }
{
    Equation {
        first: Product::nothing(),
        second: first,
        third: second,
        number,
    }
}

/// Two or three terms with their factors.
fn parts_of(factors: &[i32], terms: &[Term]) -> Parts
    requires same { length factors.now ≡ length terms.now }
    requires short { (length terms.now ≡ 2) ⊎ (length terms.now ≡ 3) }
    ensures { (c : ℤ) → parts_saying result c ≡ SumByNumbers factors.now terms.now c }
{
    let first = product_at(factors, terms, 0);
    let second = product_at(factors, terms, 1);
    if terms.len() == 2 {
        Parts::Two(first, second)
    } else {
        Parts::Three(first, second, product_at(factors, terms, 2))
    }
}

/// A variable with the factor -1, and one or two terms with theirs.
fn parts_behind(variable: Term, factors: &[i32], terms: &[Term]) -> Parts
    requires same { length factors.now ≡ length terms.now }
    requires short { (length terms.now ≡ 1) ⊎ (length terms.now ≡ 2) }
    ensures { (c : ℤ) → parts_saying result c
        ≡ SumByNumbers (negsuc 0 ∷ factors.now) (variable ∷ terms.now) c }
{
    let front = Product {
        factor: -1,
        term: variable,
    };
    let first = product_at(factors, terms, 0);
    if terms.len() == 1 {
        Parts::Two(front, first)
    } else {
        Parts::Three(front, first, product_at(factors, terms, 1))
    }
}

/// The term at a place with its factor.
fn product_at(factors: &[i32], terms: &[Term], place: usize) -> Product
    requires factor { place < length factors.now }
    requires term { place < length terms.now }
    ensures factor { slice_get factors.now place ≡ Some result.factor }
    ensures term { slice_get terms.now place ≡ Some result.term }
{
    Product {
        factor: factors[place],
        term: terms[place],
    }
}

//! The numbers that make a sum.
ghost use Rattle.std.specs.Prelude.{◌≡◌, ◌≢◌, ◌↔◌, ◌^◌, ◌≤ℤ◌, ◌+ℤ◌, ◌-ℤ◌, ◌*ℤ◌, neg_ℤ, pos, ℤ, length, IfOk, IsTrue, MatchOption};
ghost use Rattle.std.specs.List.{AllByRecursion};
ghost use Rattle.fz_sets.specs.Sets.{IsInSet};
ghost use Rattle.fz_dom.specs.Shape.{IsNextAbove, IsNoneAbove};
ghost use Rattle.fz_strength.specs.Domains.{term_set, IsTermOf};
ghost use Rattle.fz_partners.specs.Equations.{DoAgree, IsSolution, terms_of};
ghost use Rattle.fz_partners.specs.Found.{AreFound, AreOfTerms};

use crate::equation::Equation;
use crate::found::Found;
use fz_num::floor_div;
use fz_prop::Store;
use fz_prop::terms::{greatest_of, has, least_of};
use fz_spec::term::Term;
use std::alloc::{AllocError, Global};

/// The numbers of the three terms that make the sum.
///
/// # Errors
/// `AllocError` where there is no memory for them.
pub fn solutions(alloc: Global, store: &Store, equation: Equation) -> Result<Found, AllocError>
    requires inside { AllByRecursion (IsTermOf (length store.now.doms)) (terms_of equation) }
    requires counts { equation.third.factor ≢ pos 0 }
    ensures found { IfOk result (λ f. AreFound store.now.doms equation f) }
    ensures of { IfOk result (λ f. AreOfTerms store.now.doms equation f) }
{
    let mut found = Found::none(alloc, store, equation);
    let mut first = least_of(store, equation.first.term);
    'firsts: loop {
        let mut second = least_of(store, equation.second.term);
        'seconds: loop {
            if let Some(third) = third_of(store, equation, first, second) {
                found.add(first, second, third)?;
            }
            match next_above(store, equation.second.term, second) {
                Some(next) => second = next,
                None => break,
            }
        }
        match next_above(store, equation.first.term, first) {
            Some(next) => first = next,
            None => return Ok(found),
        }
    }
}

/// The least number of a term above a value, if there is one.
fn next_above(store: &Store, term: Term, value: i32) -> Option<i32>
    requires { IsTermOf (length store.now.doms) term }
    ensures { MatchOption result (IsNoneAbove (term_set store.now.doms term) value)
        (λ y. IsNextAbove (term_set store.now.doms term) value y) }
{
    match term {
        Term::Var(variable) => store.dom(variable).next_above(value),
        Term::Num(number) if value < number => Some(number),
        Term::Num(_) => None,
    }
}

/// The number of the third term that makes the sum with numbers of the other two, if one is left.
fn third_of(store: &Store, equation: Equation, first: i32, second: i32) -> Option<i32>
    requires term { IsTermOf (length store.now.doms) equation.third.term }
    requires counts { equation.third.factor ≢ pos 0 }
    ensures { MatchOption result
        ((w : ℤ) → IsInSet (term_set store.now.doms equation.third.term) w
        → IsSolution equation first second w → ⊥)
        (λ w. IsInSet (term_set store.now.doms equation.third.term) w
        × IsSolution equation first second w
        × ((x : ℤ) → IsSolution equation first second x → x ≡ w)) }
{
    let factor = equation.third.factor;
    let rest = rest_of(equation, first, second);
    let quotient = floor_div(rest, i128::from(factor));
    let Some(third) = number_in(store, equation.third.term, quotient) else {
        return None;
    };
    if i128::from(product(factor, third)) == rest && agree(equation, first, second, third) {
        Some(third)
    } else {
        None
    }
}

/// What is left of the number for the third term, where the others have these.
fn rest_of(equation: Equation, first: i32, second: i32) -> i128
    ensures rest { result ≡ (equation.number -ℤ equation.first.factor *ℤ first)
        -ℤ equation.second.factor *ℤ second }
    ensures low { neg_ℤ (pos (2 ^ 100)) ≤ℤ result }
    ensures high { result ≤ℤ pos (2 ^ 100) }
{
    let first = i128::from(product(equation.first.factor, first));
    let second = i128::from(product(equation.second.factor, second));
    i128::from(equation.number) - first - second
}

/// A factor times a number, which fits.
fn product(factor: i32, number: i32) -> i64
    ensures { result ≡ factor *ℤ number }
{
    i64::from(factor) * i64::from(number)
}

/// A number of a term, if it is one.
fn number_in(store: &Store, term: Term, number: i128) -> Option<i32>
    requires { IsTermOf (length store.now.doms) term }
    ensures { MatchOption result (IsInSet (term_set store.now.doms term) number → ⊥)
        (λ x. (x ≡ number) × IsInSet (term_set store.now.doms term) x) }
{
    let low = i128::from(least_of(store, term));
    let high = i128::from(greatest_of(store, term));
    if number < low || high < number {
        return None;
    }
    let number = number as i32;
    if has(store, term, number) {
        Some(number)
    } else {
        None
    }
}

/// Whether terms that are the same have the same number.
fn agree(equation: Equation, first: i32, second: i32, third: i32) -> bool
    ensures { IsTrue result ↔ DoAgree equation.first.term equation.second.term
        equation.third.term first second third }
{
    let (s, t, r) = (
        equation.first.term,
        equation.second.term,
        equation.third.term,
    );
    same_number(s, t, first, second)
        && same_number(s, r, first, third)
        && same_number(t, r, second, third)
}

/// Whether two terms aren't the same, or have the same number.
fn same_number(one: Term, other: Term, first: i32, second: i32) -> bool
    ensures { IsTrue result ↔ (one ≡ other → first ≡ second) }
{
    one != other || first == second
}

//! The ends of terms and of weighted sums in a box.
ghost use Rattle.std.specs.Prelude.{◌≡◌, ◌↔◌, ◌+◌, ◌*◌, ◌^◌, ◌≤◌, ◌+ℤ◌, ◌*ℤ◌, length, unsigned_abs, IsTrue, [], ◌≤ℤ◌, ℤ};
ghost use Rattle.fz_sets.specs.Sets.{IsInSet};
ghost use Rattle.fz_dom.specs.Shape.{least, greatest};
ghost use Rattle.fz_refutes.specs.Boxes.{set_at, set_of};
ghost use Rattle.fz_refutes.specs.Refuted.{least_product, greatest_product, least_sum, greatest_sum, IsWorse, IsNoBetter};

use crate::area::Area;
use fz_model::{Assignment, Goal, Model, Term, value_of};

/// The least and the greatest of a term, 0 where its set is empty.
pub fn term_ends(area: &Area, term: Term) -> (i32, i32)
    ensures least { result.0 ≡ least (set_of area.now term) }
    ensures greatest { result.1 ≡ greatest (set_of area.now term) }
{
    match term {
        Term::Num(number) => (number, number),
        Term::Var(variable) => variable_ends(area, variable),
    }
}

fn variable_ends(area: &Area, variable: u32) -> (i32, i32)
    ensures least { result.0 ≡ least (set_at area.now variable) }
    ensures greatest { result.1 ≡ greatest (set_at area.now variable) }
{
    let sets = area.sets();
    let place = variable as usize;
    if place >= sets.len() {
        return (0, 0);
    }
    let set = &sets[place];
    if set.is_empty() {
        return (0, 0);
    }
    (set.min(), set.max())
}

/// A product, which fits.
fn product(factor: i32, number: i32) -> i64
    ensures product { result ≡ factor *ℤ number }
    ensures near { unsigned_abs result ≤ 2 ^ 62 }
{
    i64::from(factor) * i64::from(number)
}

/// The least and the greatest that a term is with its factor.
fn product_ends(area: &Area, factor: i32, term: Term) -> (i64, i64)
    ensures least { result.0 ≡ least_product factor (set_of area.now term) }
    ensures greatest { result.1 ≡ greatest_product factor (set_of area.now term) }
    ensures near { unsigned_abs result.0 ≤ 2 ^ 62 }
    ensures near_greatest { unsigned_abs result.1 ≤ 2 ^ 62 }
{
    let (low, high) = term_ends(area, term);
    if factor < 0 {
        (product(factor, high), product(factor, low))
    } else {
        (product(factor, low), product(factor, high))
    }
}

/// A sum of that many products, and one more.
fn add(sum: i128, product: i64, count: usize) -> i128
    requires near { unsigned_abs sum ≤ count * 2 ^ 62 }
    requires small { unsigned_abs product ≤ 2 ^ 62 }
    ensures sum { result ≡ sum +ℤ product }
    ensures near { unsigned_abs result ≤ (count + 1) * 2 ^ 62 }
{
    sum + i128::from(product)
}

/// The least and the greatest that the sum of terms is with their factors, to the end of the shorter list.
pub fn sum_ends(area: &Area, factors: &[i32], terms: &[Term]) -> (i128, i128)
    ensures least { result.0 ≡ least_sum area.now factors.now terms.now }
    ensures greatest { result.1 ≡ greatest_sum area.now factors.now terms.now }
    ensures near { unsigned_abs result.0 ≤ 2 ^ 126 }
    ensures near_greatest { unsigned_abs result.1 ≤ 2 ^ 126 }
{
    let (mut least, mut greatest) = (0, 0);
    for i in 0..factors.len().min(terms.len()) {
        let (low, high) = product_ends(area, factors[i], terms[i]);
        least = add(least, low, i);
        greatest = add(greatest, high, i);
    }
    (least, greatest)
}

/// Whether no value of the goal's term is better than that of the head.
pub fn is_worse(model: &Model, area: &Area, head: &Option<Assignment>) -> bool
    ensures { IsTrue result ↔ IsWorse model.now.goal area.now head.now }
{
    match head {
        None => false,
        Some(best) => is_no_better(model, area, best),
    }
}

fn is_no_better(model: &Model, area: &Area, best: &Assignment) -> bool
    ensures { IsTrue result ↔ IsNoBetter model.now.goal area.now best.now }
{
    match model.goal() {
        Goal::Satisfy => false,
        Goal::Minimize(term) => is_below(value_of(*term, best.values()), area, *term),
        Goal::Maximize(term) => is_above(value_of(*term, best.values()), area, *term),
    }
}

/// Whether no value of a term is below a number.
fn is_below(number: i32, area: &Area, term: Term) -> bool
    ensures { IsTrue result ↔ ((x : ℤ) → IsInSet (set_of area.now term) x → number ≤ℤ x) }
{
    let _ = area.sets();
    is_none(area, term) || is_most(number, term_ends(area, term).0)
}

/// Whether no value of a term is above a number.
fn is_above(number: i32, area: &Area, term: Term) -> bool
    ensures { IsTrue result ↔ ((x : ℤ) → IsInSet (set_of area.now term) x → x ≤ℤ number) }
{
    let _ = area.sets();
    is_none(area, term) || is_most(term_ends(area, term).1, number)
}

/// Whether a term has no value.
fn is_none(area: &Area, term: Term) -> bool
    ensures { IsTrue result ↔ (set_of area.now term ≡ []) }
{
    match term {
        Term::Num(_) => false,
        Term::Var(variable) => is_none_of(area, variable),
    }
}

/// Whether a variable has no value.
pub fn is_none_of(area: &Area, variable: u32) -> bool
    ensures { IsTrue result ↔ (set_at area.now variable ≡ []) }
{
    let sets = area.sets();
    let place = variable as usize;
    place < sets.len() && sets[place].is_empty()
}

fn is_most(low: i32, high: i32) -> bool
    ensures { IsTrue result ↔ (low ≤ℤ high) }
{
    low <= high
}

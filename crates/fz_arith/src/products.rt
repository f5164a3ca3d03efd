//! Products whose ends fit together.
ghost use Rattle.std.specs.Prelude.{◌≡◌, ◌∷◌, [], pos, ◌*ℤ◌, ◌≤ℤ◌, length, IsTrue};
ghost use Rattle.std.specs.List.{AllByRecursion};
ghost use Rattle.fz_spec.specs.declared.shape.Operation.TheVariants.{Times};
ghost use Rattle.fz_strength.specs.Operations.{equation, IsEquationLine};
ghost use Rattle.fz_strength.specs.Domains.{IsTermOf};
ghost use Rattle.fz_arith.specs.Products.{IsEnd, IsKept};

use crate::ends::around;
use fz_prop::Store;
use fz_prop::terms::{greatest_of, least_of};
use fz_ranges::numbers::product;
use fz_spec::shape::Operation;
use fz_spec::term::Term;
use fz_strength::bounds::Bounds;

/// Whether an equation is a product of two terms, and a look at the ends shows that no bound lacks.
pub fn rests_as_product(store: &Store, operation: Operation, operands: &[Term], value: Term) -> bool
    requires value { IsTermOf (length store.now.doms) value }
    requires operands { AllByRecursion (IsTermOf (length store.now.doms)) operands.now }
    ensures { IsTrue result
        → IsEquationLine (equation operation operands.now value) store.now.doms }
{
    match (operation, operands) {
        (Operation::Times, [x, y]) => fit(store, *x, *y, value),
        _ => false,
    }
}

/// Whether the ends of two factors and of their product fit: no division is needed to see that none of them lacks a bound.
fn fit(store: &Store, x: Term, y: Term, value: Term) -> bool
    requires x { IsTermOf (length store.now.doms) x }
    requires y { IsTermOf (length store.now.doms) y }
    requires value { IsTermOf (length store.now.doms) value }
    ensures { IsTrue result → IsEquationLine (equation Times (x ∷ y ∷ []) value) store.now.doms }
{
    let (low, high) = (least_of(store, x), greatest_of(store, x));
    let (other_low, other_high) = (least_of(store, y), greatest_of(store, y));
    let (least, greatest) = (least_of(store, value), greatest_of(store, value));
    let at_low = (product(low, other_low), product(low, other_high));
    let at_high = (product(high, other_low), product(high, other_high));
    let hull = around(value, at_low.0, at_low.1, at_high.0, at_high.1);
    if !lie_between(hull, least, greatest) {
        return false;
    }
    let ends = (i64::from(least), i64::from(greatest));
    if !is_kept(other_low, other_high, at_low, at_high, ends) {
        return false;
    }
    is_kept(
        low,
        high,
        (at_low.0, at_high.0),
        (at_low.1, at_high.1),
        ends,
    )
}

/// Whether the numbers from a least to a greatest lie between bounds.
fn lie_between(bounds: Bounds, least: i32, greatest: i32) -> bool
    ensures { IsTrue result → (bounds.low ≤ℤ least) × (greatest ≤ℤ bounds.high) }
{
    bounds.low <= i64::from(least) && i64::from(greatest) <= bounds.high
}

/// Whether a factor keeps its ends, by the other's and by its products with these: the other may be 0, or an end of the product comes of
/// its least number, and one of its greatest.
fn is_kept(low: i32, high: i32, at_low: (i64, i64), at_high: (i64, i64), ends: (i64, i64)) -> bool
    ensures { IsTrue result → IsKept low high at_low at_high ends }
{
    if low <= 0 && 0 <= high {
        return true;
    }
    has_end(at_low, ends) && has_end(at_high, ends)
}

/// Whether one of two products is an end.
fn has_end(products: (i64, i64), ends: (i64, i64)) -> bool
    ensures { IsTrue result → IsEnd products ends }
{
    let (first, second) = products;
    first == ends.0 || first == ends.1 || second == ends.0 || second == ends.1
}

//! Indices into lists, counted from 1.
ghost use Rattle.std.specs.Prelude.{◌≡◌, ℤ, pos, ◌+ℤ◌, ◌≤ℤ◌, ◌<ℤ◌, length};
ghost use Rattle.std.specs.Int.{int_max, int_min};
ghost use Rattle.fz_sets.specs.Sets.{IsInSet, GREATEST};
ghost use Rattle.fz_dom.specs.Shape.{least, greatest};
ghost use Rattle.fz_strength.specs.Domains.{term_set, IsTermOf};
ghost use Rattle.fz_prop.specs.Stores.{FitsTerm};

use crate::store::Store;
use crate::terms::{greatest_of, least_of};
use fz_spec::term::Term;

/// The first index that may be left of a term.
pub fn first_index(store: &Store, index: Term) -> i32
    requires { IsTermOf (length store.now.doms) index }
    ensures first { result ≡ int_max (least (term_set store.now.doms index)) (pos 1) }
    ensures below { (k : ℤ) → pos 1 ≤ℤ k
        → IsInSet (term_set store.now.doms index) k → result ≤ℤ k }
{
    least_of(store, index).max(1)
}

/// What is above each index of a list of that many that is left of a term.
pub fn index_end(store: &Store, index: Term, count: usize) -> i32
    requires index { IsTermOf (length store.now.doms) index }
    requires fits { FitsTerm index }
    ensures end { result
        ≡ int_min (greatest (term_set store.now.doms index)) (pos count) +ℤ pos 1 }
    ensures above { (k : ℤ) → k ≤ℤ pos count
        → IsInSet (term_set store.now.doms index) k → k <ℤ result }
{
    let last = greatest_of(store, index).min(last_index(count));
    above(last)
}

fn above(value: i32) -> i32
    requires { value ≤ℤ GREATEST }
    ensures { result ≡ value +ℤ pos 1 }
{
    value + 1
}

/// The last index of a list of that many, or the greatest `i32` where the list is longer.
pub fn last_index(count: usize) -> i32
    ensures last { result ≡ int_min (pos count) (pos 2147483647) }
    ensures above { (k : ℤ) → k ≤ℤ pos 2147483647 → k ≤ℤ pos count → k ≤ℤ result }
{
    i32::try_from(count).unwrap_or(i32::MAX)
}

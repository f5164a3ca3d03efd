//! How far a term may lie from the end where it is least with its factor.
ghost use Rattle.std.specs.Prelude.{◌≡◌, ℕ, ◌*◌, ◌<◌, ◌≤◌, ℤ, pos, ◌+ℤ◌, ◌-ℤ◌, ◌≤ℤ◌, List, length, MatchOption};
ghost use Rattle.fz_dom.specs.Shape.{least, greatest};
ghost use Rattle.fz_strength.specs.Domains.{term_set, IsTermOf};
ghost use Rattle.fz_prop.specs.Stores.{IsStore};
ghost use Rattle.fz_shift.specs.Spans.{IsSpanned};

use fz_prop::Store;
use fz_prop::terms::{greatest_of, least_of};
use fz_spec::term::Term;

/// The most steps of this size within the slack, where those are fewer than the width.
pub fn reach(size: u32, width: u32, slack: u128) -> Option<u32>
    ensures { MatchOption result (size * width ≤ slack)
        (λ r. (r < width) × ((d : ℕ) → size * d ≤ slack → d ≤ r)) }
{
    if u128::from(u64::from(size) * u64::from(width)) <= slack {
        return None;
    }
    Some((slack as u64 / u64::from(size)) as u32)
}

/// How far the greatest number of a term is above its least.
pub fn width(store: &Store, term: Term) -> u32
    requires { IsTermOf (length store.now.doms) term }
    ensures width { greatest (term_set store.now.doms term)
        ≡ least (term_set store.now.doms term) +ℤ pos result }
    ensures spanned { IsSpanned (term_set store.now.doms term) }
{
    greatest_of(store, term).abs_diff(least_of(store, term))
}

/// The number so far above the least of a term.
pub fn above_least(store: &Store, term: Term, reach: u32) -> i32
    requires term { IsTermOf (length store.now.doms) term }
    requires reach { (least (term_set store.now.doms term) +ℤ pos reach)
        ≤ℤ greatest (term_set store.now.doms term) }
    ensures { result ≡ least (term_set store.now.doms term) +ℤ pos reach }
{
    let (low, high) = (least_of(store, term), greatest_of(store, term));
    low.checked_add_unsigned(reach).unwrap_or(high)
}

/// The number so far below the greatest of a term.
pub fn below_greatest(store: &Store, term: Term, reach: u32) -> i32
    requires term { IsTermOf (length store.now.doms) term }
    requires reach { least (term_set store.now.doms term)
        ≤ℤ (greatest (term_set store.now.doms term) -ℤ pos reach) }
    ensures { result ≡ greatest (term_set store.now.doms term) -ℤ pos reach }
{
    let (low, high) = (least_of(store, term), greatest_of(store, term));
    high.checked_sub_unsigned(reach).unwrap_or(low)
}

//! What is seen of a relation of two terms before both are fixed.
ghost use Rattle.std.specs.Prelude.{◌⊎◌, ◌↔◌, ◌+ℤ◌, ◌≤ℤ◌, ℤ, pos, List, length, IsTrue};
ghost use Rattle.fz_sets.specs.Sets.{IsInSet};
ghost use Rattle.fz_bits.specs.Windows.{IsBit};
ghost use Rattle.fz_spec.specs.declared.shape.Relation.TheVariants.{NotEqual};
ghost use Rattle.fz_strength.specs.Domains.{term_set, IsTermOf};
ghost use Rattle.fz_strength.specs.Memberships.{LiesOutside};
ghost use Rattle.fz_strength.specs.Relations.{IsShown, IsRefuted};
ghost use Rattle.fz_prop.specs.Stores.{FitsTerm};
ghost use Rattle.fz_rel.specs.Seen.{AreAll, AreNone, IsNarrow};

use crate::ends::{ends_of, is_shown};
use fz_bits::Window;
use fz_bits::word::common;
use fz_prop::Store;
use fz_prop::terms::{has, value_of, window_of, word_of};
use fz_spec::shape::Relation;
use fz_spec::term::Term;

/// Whether all numbers of two terms are seen to stand in a relation: by their ends, and by what they have in common where one of them is
/// at most 64 wide.
pub fn are_all(store: &Store, relation: Relation, x: Term, y: Term) -> bool
    requires x { IsTermOf (length store.now.doms) x }
    requires y { IsTermOf (length store.now.doms) y }
    requires fits_x { FitsTerm x }
    requires fits_y { FitsTerm y }
    ensures all { IsTrue result
        → AreAll relation (term_set store.now.doms x) (term_set store.now.doms y) }
    ensures shown { IsShown relation (term_set store.now.doms x) (term_set store.now.doms y)
        → IsTrue result }
{
    let _ = store.doms();
    match relation {
        Relation::NotEqual => are_apart(store, x, y),
        _ => is_shown(relation, ends_of(store, x), ends_of(store, y)),
    }
}

/// Whether none of them are seen to.
pub fn are_none(store: &Store, relation: Relation, x: Term, y: Term) -> bool
    requires x { IsTermOf (length store.now.doms) x }
    requires y { IsTermOf (length store.now.doms) y }
    requires fits_x { FitsTerm x }
    requires fits_y { FitsTerm y }
    ensures none { IsTrue result
        → AreNone relation (term_set store.now.doms x) (term_set store.now.doms y) }
    ensures refuted { IsRefuted relation (term_set store.now.doms x) (term_set store.now.doms y)
        → IsTrue result }
{
    match relation {
        Relation::Equal => are_all(store, Relation::NotEqual, x, y),
        Relation::NotEqual => are_all(store, Relation::Equal, x, y),
        Relation::AtMost => are_all(store, Relation::Below, y, x),
        Relation::Below => are_all(store, Relation::AtMost, y, x),
    }
}

/// Whether two terms are seen to have no number in common: by their numbers where one of them is at most 64 wide, else by their ends.
fn are_apart(store: &Store, x: Term, y: Term) -> bool
    requires x { IsTermOf (length store.now.doms) x }
    requires y { IsTermOf (length store.now.doms) y }
    requires fits_x { FitsTerm x }
    requires fits_y { FitsTerm y }
    ensures apart { IsTrue result
        → LiesOutside (term_set store.now.doms x) (term_set store.now.doms y) }
    ensures told { IsNarrow (term_set store.now.doms x) ⊎ IsNarrow (term_set store.now.doms y)
        → LiesOutside (term_set store.now.doms x) (term_set store.now.doms y) → IsTrue result }
    ensures shown { IsShown NotEqual (term_set store.now.doms x) (term_set store.now.doms y)
        → IsTrue result }
{
    let _ = store.doms();
    if let Some(value) = value_of(store, y) {
        return !has(store, x, value);
    }
    if let Some(window) = window_of(store, x) {
        return misses(store, window, y);
    }
    match window_of(store, y) {
        Some(window) => misses(store, window, x),
        None => is_shown(Relation::NotEqual, ends_of(store, x), ends_of(store, y)),
    }
}

/// Whether a term has no number of a window.
fn misses(store: &Store, window: Window, term: Term) -> bool
    requires { IsTermOf (length store.now.doms) term }
    ensures { IsTrue result ↔ ((z : ℤ) → IsBit window.base window.bits z
        → IsInSet (term_set store.now.doms term) z → ⊥) }
{
    common(window.bits, word_of(store, term, window.base)) == 0
}

//! What the ends of two terms show of a relation.
ghost use Rattle.std.specs.Prelude.{◌≡◌, ◌↔◌, ℤ, List, length, IsTrue};
ghost use Rattle.fz_dom.specs.Shape.{least, greatest};
ghost use Rattle.fz_strength.specs.Domains.{term_set, IsTermOf};
ghost use Rattle.fz_strength.specs.Relations.{IsShown};
ghost use Rattle.fz_rel.specs.Ends.{AreEnds};

use fz_prop::Store;
use fz_prop::terms::{greatest_of, least_of};
use fz_spec::shape::Relation;
use fz_spec::term::Term;

/// The least and the greatest number of a term.
#[derive(Clone, Copy)]
pub struct Ends {
    low: i32,
    high: i32,
}

/// The ends of a term.
pub fn ends_of(store: &Store, term: Term) -> Ends
    requires { IsTermOf (length store.now.doms) term }
    ensures { AreEnds result (term_set store.now.doms term) }
{
    Ends {
        low: least_of(store, term),
        high: greatest_of(store, term),
    }
}

/// Whether the ends of two terms show that all their numbers stand in this relation.
pub fn is_shown(relation: Relation, x: Ends, y: Ends) -> bool
    ensures { (d e : List (ℤ × ℤ)) → AreEnds x d → AreEnds y e
        → IsTrue result ↔ IsShown relation d e }
{
    match relation {
        Relation::Equal => x.high <= y.low && y.high <= x.low,
        Relation::NotEqual => x.high < y.low || y.high < x.low,
        Relation::AtMost => x.high <= y.low,
        Relation::Below => x.high < y.low,
    }
}

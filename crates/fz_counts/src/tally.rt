//! At how many places a value is alone, and at how many it is left.
ghost use Rattle.std.specs.Prelude.{◌≡◌, ◌↔◌, IsTrue, length};
ghost use Rattle.std.specs.List.{AllByRecursion};
ghost use Rattle.fz_strength.specs.Counts as line;
ghost use Rattle.fz_strength.specs.Domains.{IsTermOf};

use fz_prop::Store;
use fz_prop::terms::{greatest_of, has, least_of};
use fz_spec::term::Term;

/// At how many places a value is alone, and at how many it is left.
#[derive(Clone, Copy)]
pub struct Tally {
    pub fewest: usize,
    pub most: usize,
}

impl Tally {
    /// Whether as many places are sure to have the value as may have it.
    pub fn is_decided(self) -> bool
        ensures { IsTrue result ↔ (self.fewest ≡ self.most) }
    {
        self.fewest == self.most
    }
}

/// The tally of a value among terms.
pub fn tally_of(store: &Store, terms: &[Term], value: i32) -> Tally
    requires { AllByRecursion (IsTermOf (length store.now.doms)) terms.now }
    ensures fewest { result.fewest ≡ line.fewest terms.now store.now.doms value }
    ensures most { result.most ≡ line.most terms.now store.now.doms value }
{
    let mut fewest = 0;
    let mut most = 0;
    for term in terms {
        fewest += usize::from(is_surely(store, *term, value));
        most += usize::from(may_be(store, *term, value));
    }
    Tally { fewest, most }
}

/// Whether a value is left of a term, and alone.
pub fn is_surely(store: &Store, term: Term, value: i32) -> bool
    requires { IsTermOf (length store.now.doms) term }
    ensures { result ≡ line.is_surely store.now.doms value term }
{
    let least = least_of(store, term);
    let greatest = greatest_of(store, term);
    least == value && greatest == value
}

/// Whether a value is left of a term.
pub fn may_be(store: &Store, term: Term, value: i32) -> bool
    requires { IsTermOf (length store.now.doms) term }
    ensures { result ≡ line.may_be store.now.doms value term }
{
    has(store, term, value)
}

//! How what is left of places lies to the values of a cover.
ghost use Rattle.std.specs.Prelude.{length};
ghost use Rattle.std.specs.List.{AllByRecursion};
ghost use Rattle.fz_strength.specs.Domains.{IsTermOf};
ghost use Rattle.fz_counts.specs.Covers.{AreSoMany, IsInside, IsSound, MayCount, Stands};

use crate::cover::Cover;
use crate::tally::Tally;
use fz_bits::word::{common, without};
use fz_prop::Store;
use fz_prop::terms::{greatest_of, least_of, word_of};
use fz_spec::term::Term;

/// How what is left of a term lies to the values of a cover.
#[derive(Clone, Copy)]
pub enum Standing {
    /// None of it is a value of the cover.
    Outside,
    /// Some of it is, and some isn't.
    Mixed,
    /// All of it is.
    Inside,
}

/// At how many terms all that is left are values of a cover, and at how many some are.
pub fn cover_tally(store: &Store, terms: &[Term], cover: Cover) -> Tally
    requires terms { AllByRecursion (IsTermOf (length store.now.doms)) terms.now }
    requires cover { IsSound cover }
    ensures fewest { AreSoMany (IsInside cover store.now.doms) terms.now result.fewest }
    ensures most { AreSoMany (MayCount cover store.now.doms) terms.now result.most }
{
    let mut fewest = 0;
    let mut most = 0;
    for term in terms {
        match standing_of(store, *term, cover) {
            Standing::Outside => {}
            Standing::Mixed => most += 1,
            Standing::Inside => {
                fewest += 1;
                most += 1;
            }
        }
    }
    Tally { fewest, most }
}

/// How what is left of a term lies to the values of a cover.
pub fn standing_of(store: &Store, term: Term, cover: Cover) -> Standing
    requires term { IsTermOf (length store.now.doms) term }
    requires cover { IsSound cover }
    ensures { Stands result cover store.now.doms term }
{
    let Cover { window, gap } = cover;
    let least = least_of(store, term);
    let greatest = greatest_of(store, term);
    if window.base <= least && greatest < gap {
        return Standing::Inside;
    }
    let left = word_of(store, term, window.base);
    if common(left, window.bits) == 0 {
        return Standing::Outside;
    }
    if least < window.base || window.base + 63 < greatest || without(left, window.bits) != 0 {
        return Standing::Mixed;
    }
    Standing::Inside
}

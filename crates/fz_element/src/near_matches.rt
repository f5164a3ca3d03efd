//! The indices of a window and the numbers of another that have a match.
ghost use Rattle.std.specs.Prelude.{length, IfSome};
ghost use Rattle.std.specs.List.{AllByRecursion};
ghost use Rattle.fz_strength.specs.Domains.{IsTermOf};
ghost use Rattle.fz_prop.specs.Stores.{FitsTerm};
ghost use Rattle.fz_element.specs.Matching.{AreMatches, IsLeftAt};
ghost use Rattle.fz_element.specs.Selecting.{Has, AreWithin};

use crate::matches::Matches;
use crate::numbers::Numbers;
use crate::words::term_at;
use fz_bits::Window;
use fz_bits::word::common;
use fz_prop::Store;
use fz_prop::matching::{Partners, related};
use fz_prop::terms::{window_of, word_of};
use fz_spec::term::Term;

/// Terms, of which what is left are the partners of the index at which it stands.
#[derive(Clone, Copy)]
struct Terms<'t> {
    store: &'t Store,
    terms: &'t [Term],
}

impl Partners for Terms<'_> {
    ghost are_partners = { λ s i n. IsLeftAt s.terms.now s.store.now.doms i n };

    ghost takes = { λ s base. AllByRecursion (IsTermOf (length s.store.now.doms)) s.terms.now };

    fn among(&self, first: i32, seconds: Window) -> u64 {
        let Some(term) = term_at(self.terms, first) else {
            return 0;
        };
        common(word_of(self.store, term, seconds.base), seconds.bits)
    }
}

/// The indices and the numbers of all matches, where what is left of the index and of the value is at most 64 wide.
pub fn near_matches(store: &Store, index: Term, terms: &[Term], value: Term) -> Option<Matches>
    requires index { IsTermOf (length store.now.doms) index }
    requires terms { AllByRecursion (IsTermOf (length store.now.doms)) terms.now }
    requires value { IsTermOf (length store.now.doms) value }
    requires fits_index { FitsTerm index }
    requires fits_value { FitsTerm value }
    ensures matches { IfSome result (λ m. AreMatches terms.now index value store.now.doms
        (λ i. Has m.indices i) (λ n. Has m.numbers n)) }
    ensures indices { IfSome result (λ m. AreWithin m.indices) }
    ensures numbers { IfSome result (λ m. AreWithin m.numbers) }
{
    let indices = window_of(store, index)?;
    let values = window_of(store, value)?;
    let found = related(indices, values, &Terms { store, terms });
    Some(Matches {
        indices: Numbers::Near(found.firsts),
        numbers: Numbers::Near(found.seconds),
    })
}

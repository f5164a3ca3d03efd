//! Whether all that is left has a match, seen by words of bits.
ghost use Rattle.std.specs.Prelude.{◌≡◌, ◌↔◌, ◌<ℤ◌, ◌+ℤ◌, pos, true, length, IfSome, IsTrue, MatchOption};
ghost use Rattle.std.specs.List.{AllByRecursion};
ghost use Rattle.fz_bits.specs.Words.{AreOnes};
ghost use Rattle.fz_sets.specs.Sets.{IsInSet};
ghost use Rattle.fz_dom.specs.Shape.{IsNextAbove, IsNoneAbove};
ghost use Rattle.fz_strength.specs.Domains.{term_set, IsTermOf};
ghost use Rattle.fz_strength.specs.VariableElements.{StandsAt};
ghost use Rattle.fz_element.specs.Matching.{AreAllMatched, AreFound};

use fz_bits::word::{common, either};
use fz_prop::Store;
use fz_prop::terms::{greatest_of, least_of, word_of};
use fz_spec::term::Term;

/// Whether each index that is left and each number of a value is seen to have a match. Where the value is more than 64 wide none
/// is seen.
pub fn are_all_matched(store: &Store, index: Term, terms: &[Term], value: Term) -> bool
    requires index { IsTermOf (length store.now.doms) index }
    requires terms { AllByRecursion (IsTermOf (length store.now.doms)) terms.now }
    requires value { IsTermOf (length store.now.doms) value }
    ensures { result ≡ true → AreAllMatched terms.now index value store.now.doms }
{
    let base = least_of(store, value);
    if !is_near(base, greatest_of(store, value)) {
        return false;
    }
    let wanted = word_of(store, value, base);
    match found_in(store, index, terms, value, base, wanted) {
        Some(found) => found == wanted,
        None => false,
    }
}

/// Whether a high is less than 64 above a low.
fn is_near(low: i32, high: i32) -> bool
    ensures { IsTrue result ↔ (high <ℤ (low +ℤ pos 64)) }
{
    i64::from(high) - i64::from(low) < 64
}

/// The bits of the numbers that have a match, if each index that is left has one; bit 0 stands for a base, and a word has the
/// bits of the value.
fn found_in(
    store: &Store,
    index: Term,
    terms: &[Term],
    value: Term,
    base: i32,
    wanted: u64,
) -> Option<u64>
    requires index { IsTermOf (length store.now.doms) index }
    requires terms { AllByRecursion (IsTermOf (length store.now.doms)) terms.now }
    requires wanted { AreOnes wanted
        (λ j. IsInSet (term_set store.now.doms value) (base +ℤ pos j)) }
    ensures { IfSome result (λ w. AreFound terms.now index value store.now.doms base w) }
{
    let _ = value;
    let mut found = 0;
    let mut place = least_of(store, index);
    'places: loop {
        let term = term_at(terms, place)?;
        let shared = common(word_of(store, term, base), wanted);
        if shared == 0 {
            return None;
        }
        found = either(found, shared);
        let Some(next) = next_above(store, index, place) else {
            return Some(found);
        };
        place = next;
    }
}

/// The least number of a term above a value, if there is one.
fn next_above(store: &Store, term: Term, value: i32) -> Option<i32>
    requires { IsTermOf (length store.now.doms) term }
    ensures { MatchOption result (IsNoneAbove (term_set store.now.doms term) value)
        (λ y. IsNextAbove (term_set store.now.doms term) value y) }
{
    match term {
        Term::Var(variable) => store.dom(variable).next_above(value),
        Term::Num(number) if value < number => Some(number),
        Term::Num(_) => None,
    }
}

/// The term at an index, counted from 1, if there is one.
pub fn term_at(terms: &[Term], index: i32) -> Option<Term>
    ensures { MatchOption result
        ((x : Term) → StandsAt index terms.now x → ⊥) (λ x. StandsAt index terms.now x) }
{
    if index < 1 {
        return None;
    }
    terms.get((index - 1) as usize).copied()
}

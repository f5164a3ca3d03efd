//! Terms at both ends of which none has a number in common with any other.
ghost use Rattle.std.specs.Prelude.{◌↔◌, ◌<◌, length, IsTrue};
ghost use Rattle.std.specs.List.{AllByRecursion};
ghost use Rattle.fz_strength.specs.Differences.{AreApart};
ghost use Rattle.fz_prop.specs.Told.{AreEndsDone, IsAlone};
ghost use Rattle.fz_strength.specs.Domains.{IsTermOf};
ghost use Rattle.fz_alldiff.specs.Ends.{AreAloneBelow, AreAloneBehind, IsBetween};

use fz_prop::terms::value_of;
use fz_prop::{Kept, Store, count_of};
use fz_spec::term::Term;

/// Whether there are so many terms that it serves to keep which ones at both ends have no number in common with another.
pub fn is_long(terms: &[Term]) -> bool
    ensures { IsTrue result ↔ (4 < length terms.now) }
{
    terms.len() > 4
}

/// The terms after that many and before that many.
pub fn terms_between(terms: &[Term], front: u32, back: u32) -> &[Term]
    ensures { IsBetween terms.now front back result.now }
{
    let count = terms.len();
    let front = front as usize;
    let back = back as usize;
    if front >= count || back >= count - front {
        return &terms[..0];
    }
    &terms[front..count - back]
}

/// Moves both ends, as far as the terms beside them are fixed.
pub fn move_ends(store: &Store, terms: &[Term], kept: &mut Kept)
    requires terms { AllByRecursion (IsTermOf (length store.now.doms)) terms.now }
    requires apart { AreApart terms.now store.now.doms }
    requires told { AreEndsDone (IsAlone terms.now store.now.doms) terms.now kept.old.front kept.old.back }
    ensures told { AreEndsDone (IsAlone terms.now store.now.doms) terms.now kept.new.front kept.new.back }
{
    let front = front_from(store, terms, kept.front);
    let back = back_from(store, terms, kept.back);
    kept.front = front;
    kept.back = back;
}

/// How many terms at the front have no number in common with another, where that many haven't and the others may be fixed.
fn front_from(store: &Store, terms: &[Term], front: u32) -> u32
    requires terms { AllByRecursion (IsTermOf (length store.now.doms)) terms.now }
    requires apart { AreApart terms.now store.now.doms }
    requires told { AreAloneBelow terms.now store.now.doms front }
    ensures { AreAloneBelow terms.now store.now.doms result }
{
    let count = count_of(terms);
    for place in front..count {
        match value_of(store, terms[place as usize]) {
            Some(_) => {}
            None => return place,
        }
    }
    front.max(count)
}

/// How many terms at the back have no number in common with another, where that many haven't and the others may be fixed.
fn back_from(store: &Store, terms: &[Term], back: u32) -> u32
    requires terms { AllByRecursion (IsTermOf (length store.now.doms)) terms.now }
    requires apart { AreApart terms.now store.now.doms }
    requires told { AreAloneBehind terms.now store.now.doms back }
    ensures { AreAloneBehind terms.now store.now.doms result }
{
    let count = count_of(terms);
    for passed in back..count {
        match value_of(store, terms[terms.len() - 1 - passed as usize]) {
            Some(_) => {}
            None => return passed,
        }
    }
    back.max(count)
}

//! Keeping two lists of terms, so that each is the inverse of the other.
ghost use Rattle.std.specs.Prelude.{◌≡◌, ◌++◌, ℤ, List, length, IfOk, IsTrue};
ghost use Rattle.std.specs.List.{AllByRecursion};
ghost use Rattle.fz_dom.specs.declared.change.Change.TheVariants as changes;
ghost use Rattle.fz_strength.specs.Domains.{IsTermOf};
ghost use Rattle.fz_strength.specs.Events.{AllFixed};
ghost use Rattle.fz_strength.specs.Inverse.{IsInverseLine};
ghost use Rattle.fz_prop.specs.Answers.{IsAnswerOf, IsCorrectOf};
ghost use Rattle.fz_prop.specs.Outcomes.{IsOutcome};
ghost use Rattle.fz_prop.specs.Stores.{FitsTerm, Shrinks};
ghost use Rattle.fz_inverse.specs.Pointing.{AllCanPointBack, AreApart, AreInverseAt};

use crate::pointing::keep_pointing;
use fz_prop::terms::are_fixed;
use fz_prop::{Answer, Change, Store};
use fz_spec::term::Term;
use std::alloc::{AllocError, Global};

/// Narrows a store so that two lists of terms are inverses. Lists of two lengths never are. It rests at once where no variable of
/// the second list stands in the first, nor at another place of the second.
///
/// # Errors
/// `AllocError` where there is no memory; the store is then narrower, and no assignment is lost.
pub fn keep_inverse(
    alloc: Global,
    store: &mut Store,
    firsts: &[Term],
    seconds: &[Term],
    differ: bool,
) -> Result<Answer, AllocError>
    requires terms { AllByRecursion (IsTermOf (length store.old.doms)) (firsts.now ++ seconds.now) }
    requires fits { AllByRecursion FitsTerm (firsts.now ++ seconds.now) }
    requires differ { IsTrue differ → AreApart firsts.now seconds.now }
    ensures shrinks { Shrinks store.old store.new }
    ensures correct { IsCorrectOf (AreInverseAt firsts.now seconds.now) store.old.doms store.new.doms }
    ensures answer { IfOk result (λ r. IsAnswerOf r (AreInverseAt firsts.now seconds.now)
        (IsInverseLine firsts.now seconds.now) store.old.doms store.new.doms) }
{
    let _ = store.doms();
    if firsts.len() != seconds.len() {
        return Ok(Answer::Failed);
    }
    match keep_both(alloc, store, firsts, seconds)? {
        Change::Wiped => Ok(Answer::Failed),
        Change::Changed if differ => Ok(at_rest(store, firsts, seconds)),
        Change::Changed => Ok(Answer::NoFix),
        Change::Same => Ok(at_rest(store, firsts, seconds)),
    }
}

/// What is answered where the line holds: it holds for good where all terms are fixed.
fn at_rest(store: &Store, firsts: &[Term], seconds: &[Term]) -> Answer
    requires terms { AllByRecursion (IsTermOf (length store.now.doms)) (firsts.now ++ seconds.now) }
    requires line { IsInverseLine firsts.now seconds.now store.now.doms }
    ensures { (ds : List (List (ℤ × ℤ))) → IsAnswerOf result (AreInverseAt firsts.now seconds.now)
        (IsInverseLine firsts.now seconds.now) ds store.now.doms }
{
    Answer::rested(are_all_fixed(store, firsts, seconds))
}

/// Keeps the terms of both lists to the numbers that can point back.
fn keep_both(
    alloc: Global,
    store: &mut Store,
    firsts: &[Term],
    seconds: &[Term],
) -> Result<Change, AllocError>
    requires terms { AllByRecursion (IsTermOf (length store.old.doms)) (firsts.now ++ seconds.now) }
    requires fits { AllByRecursion FitsTerm (firsts.now ++ seconds.now) }
    ensures shrinks { Shrinks store.old store.new }
    ensures correct { IsCorrectOf (AreInverseAt firsts.now seconds.now) store.old.doms store.new.doms }
    ensures outcome { IfOk result
        (λ r. IsOutcome r (AreInverseAt firsts.now seconds.now) store.old store.new) }
    ensures firsts { IfOk result (λ r. (r ≡ changes.Wiped → ⊥)
        → (r ≡ changes.Changed → AreApart firsts.now seconds.now)
        → AllCanPointBack firsts.now seconds.now store.new.doms) }
    ensures seconds { IfOk result (λ r. (r ≡ changes.Wiped → ⊥)
        → (r ≡ changes.Changed → AreApart firsts.now seconds.now)
        → AllCanPointBack seconds.now firsts.now store.new.doms) }
{
    let change = keep_pointing(alloc, store, firsts, seconds)?;
    if let Change::Wiped = change {
        return Ok(Change::Wiped);
    }
    let other = keep_pointing(alloc, store, seconds, firsts)?;
    if let Change::Same = other {
        return Ok(change);
    }
    Ok(other)
}

/// Whether one number is left of each term of both lists.
fn are_all_fixed(store: &Store, firsts: &[Term], seconds: &[Term]) -> bool
    requires { AllByRecursion (IsTermOf (length store.now.doms)) (firsts.now ++ seconds.now) }
    ensures firsts { IsTrue result → AllFixed store.now.doms firsts.now }
    ensures seconds { IsTrue result → AllFixed store.now.doms seconds.now }
{
    are_fixed(store, firsts) && are_fixed(store, seconds)
}

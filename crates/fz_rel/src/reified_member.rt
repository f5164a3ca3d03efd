//! Terms in a set, and a Boolean that says whether they are.
ghost use Rattle.std.specs.Arc.{arc_value};
ghost use Rattle.std.specs.Prelude.{◌≡◌, ℤ, pos, List, length, IfOk};
ghost use Rattle.fz_strength.specs.Domains.{term_set, IsTermOf};
ghost use Rattle.fz_strength.specs.Events.{IsOnly, IsFixedIn};
ghost use Rattle.fz_strength.specs.Promises.{IsTruth};
ghost use Rattle.fz_strength.specs.Sayings.{MemberIf};
ghost use Rattle.fz_prop.specs.Answers.{IsAnswerOf, IsCorrectOf};
ghost use Rattle.fz_prop.specs.Stores.{Shrinks, IsStore, FitsTerm};
ghost use Rattle.fz_prop.specs.Truths.{TruthWith};
ghost use Rattle.fz_rel.specs.Members.{IsMember, IsOverlap};
ghost use Rattle.fz_rel.specs.Reified.{ReifiedMemberLine, AreOthers};

use crate::member::keep_member;
use crate::others::others_of;
use fz_dom::{Change, Dom};
use fz_prop::terms::{keep_only, value_of};
use fz_prop::{Answer, Propagator, Store};
use fz_spec::term::Term;
use std::alloc::{AllocError, Global};
use std::marker::Model;
use std::sync::Arc;

/// A term and a set, and a Boolean that says whether the term is in the set.
#[derive(Drop)]
pub struct ReifiedMembership {
    x: Term,
    set: Arc<Dom>,
    /// The numbers within the limits that aren't in the set.
    others: Dom,
    r: Term,
}

impl Model for ReifiedMembership {
    ghost use Rattle.std.specs.Arc.{arc_value};
    ghost use Rattle.fz_strength.specs.Sayings.{Saying, MemberIf};
    ghost use Rattle.fz_prop.specs.Stores.{FitsTerm};
    ghost use Rattle.fz_rel.specs.Reified.{AreOthers};

    ghost Value = { Saying };

    ghost view = { λ p. MemberIf p.x (arc_value p.set) p.r };

    ghost invariant = { λ p. AreOthers (arc_value p.set) p.others × FitsTerm p.x };
}

impl ReifiedMembership {
    /// The propagator of a term, a set and a Boolean.
    ///
    /// # Errors
    /// `AllocError` where there is no memory for the numbers outside the set.
    pub fn new(
        alloc: Global,
        x: Term,
        set: Arc<Dom>,
        r: Term,
    ) -> Result<ReifiedMembership, AllocError>
        requires { FitsTerm x }
        ensures { IfOk result (λ p. p ≡ MemberIf x (arc_value set) r) }
    {
        let others = others_of(alloc, &set)?;
        Ok(ReifiedMembership { x, set, others, r })
    }
}

/// Narrows a store by a term, a set and a Boolean that is 1.
fn keep_inside(store: &mut Store, x: Term, set: &Dom, r: Term) -> Result<Answer, AllocError>
    requires x { IsTermOf (length store.old.doms) x }
    requires r { IsTermOf (length store.old.doms) r }
    requires one { IsOnly (term_set store.old.doms r) (pos 1) }
    ensures shrinks { Shrinks store.old store.new }
    ensures correct { IsCorrectOf (TruthWith (IsMember x set.now) r)
        store.old.doms store.new.doms }
    ensures answer { IfOk result (λ a. IsAnswerOf a (TruthWith (IsMember x set.now) r)
        (ReifiedMemberLine x set.now r) store.old.doms store.new.doms) }
{
    let _ = r;
    let answer = keep_member(store, x, set)?;
    let _ = store.doms();
    Ok(answer)
}

/// Narrows a store by a term, the numbers outside a set, and a Boolean that is 0.
fn keep_outside(store: &mut Store, x: Term, others: &Dom, r: Term) -> Result<Answer, AllocError>
    requires x { IsTermOf (length store.old.doms) x }
    requires r { IsTermOf (length store.old.doms) r }
    requires fits { FitsTerm x }
    requires zero { IsOnly (term_set store.old.doms r) (pos 0) }
    ensures shrinks { Shrinks store.old store.new }
    ensures correct { (set : List (ℤ × ℤ)) → AreOthers set others.now
        → IsCorrectOf (TruthWith (IsMember x set) r) store.old.doms store.new.doms }
    ensures answer { IfOk result (λ a. (set : List (ℤ × ℤ)) → AreOthers set others.now
        → IsAnswerOf a (TruthWith (IsMember x set) r) (ReifiedMemberLine x set r)
        store.old.doms store.new.doms) }
{
    let _ = r;
    let _ = store.doms();
    let answer = keep_member(store, x, others)?;
    let _ = store.doms();
    Ok(answer)
}

/// Where both are left of a Boolean, fixes it if what is left of the term decides.
fn decide(store: &mut Store, x: Term, set: &Dom, r: Term) -> Result<Answer, AllocError>
    requires x { IsTermOf (length store.old.doms) x }
    requires r { IsTermOf (length store.old.doms) r }
    requires truth { IsTruth store.old.doms r }
    requires unfixed { IsFixedIn store.old.doms r → ⊥ }
    ensures shrinks { Shrinks store.old store.new }
    ensures correct { IsCorrectOf (TruthWith (IsMember x set.now) r)
        store.old.doms store.new.doms }
    ensures answer { IfOk result (λ a. IsAnswerOf a (TruthWith (IsMember x set.now) r)
        (ReifiedMemberLine x set.now r) store.old.doms store.new.doms) }
{
    match overlap(store, x, set)? {
        Change::Same => {
            let change = keep_only(store, r, 1)?;
            Ok(Answer::settled(change))
        }
        Change::Wiped => {
            let change = keep_only(store, r, 0)?;
            Ok(Answer::settled(change))
        }
        Change::Changed => Ok(Answer::Fix),
    }
}

/// What would become of the numbers of a term if those in a set were to stay.
fn overlap(store: &Store, x: Term, set: &Dom) -> Result<Change, AllocError>
    requires { IsTermOf (length store.now.doms) x }
    ensures overlap { IfOk result (λ r. IsOverlap r (term_set store.now.doms x) set.now) }
    ensures store { IsStore store.now }
{
    let _ = store.doms();
    match x {
        Term::Var(variable) => overlap_of(store.dom(variable), set),
        Term::Num(number) if set.contains(number) => Ok(Change::Same),
        Term::Num(_) => Ok(Change::Wiped),
    }
}

/// What would become of a domain if its numbers in a set were to stay.
fn overlap_of(dom: &Dom, set: &Dom) -> Result<Change, AllocError>
    ensures { IfOk result (λ r. IsOverlap r dom.now set.now) }
{
    let mut kept = dom.copy()?;
    kept.keep(set)
}

impl Propagator for ReifiedMembership {
    ghost saying = { λ p. p };

    fn propagate(&self, store: &mut Store) -> Result<Answer, AllocError> {
        match value_of(store, self.r) {
            Some(1) => keep_inside(store, self.x, &self.set, self.r),
            Some(_) => keep_outside(store, self.x, &self.others, self.r),
            None => decide(store, self.x, &self.set, self.r),
        }
    }
}

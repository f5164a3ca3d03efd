//! Terms in a set.
ghost use Rattle.std.specs.Arc.{arc_value};
ghost use Rattle.std.specs.Prelude.{◌≡◌, List, length, IfOk};
ghost use Rattle.fz_strength.specs.Sayings.{Member};
ghost use Rattle.fz_prop.specs.Answers.{IsAnswerOf, IsCorrectOf};
ghost use Rattle.fz_strength.specs.Domains.{IsTermOf};
ghost use Rattle.fz_prop.specs.Stores.{Shrinks};
ghost use Rattle.fz_rel.specs.Members.{IsMember, MemberLine};

use fz_dom::Dom;
use fz_prop::terms::keep_in;
use fz_prop::{Answer, Propagator, Store};
use fz_spec::term::Term;
use std::alloc::AllocError;
use std::marker::Model;
use std::sync::Arc;

/// A term that is to be in a set.
#[derive(Drop)]
pub struct Membership {
    x: Term,
    set: Arc<Dom>,
}

impl Model for Membership {
    ghost use Rattle.std.specs.Arc.{arc_value};
    ghost use Rattle.fz_strength.specs.Sayings.{Saying, Member};

    ghost Value = { Saying };

    ghost view = { λ p. Member p.x (arc_value p.set) };
}

impl Membership {
    /// The propagator of a term and a set.
    pub fn new(x: Term, set: Arc<Dom>) -> Membership
        ensures { result ≡ Member x (arc_value set) }
    {
        Membership { x, set }
    }
}

/// Narrows a store so that a term is in a set.
pub fn keep_member(store: &mut Store, x: Term, set: &Dom) -> Result<Answer, AllocError>
    requires { IsTermOf (length store.old.doms) x }
    ensures shrinks { Shrinks store.old store.new }
    ensures correct { IsCorrectOf (IsMember x set.now) store.old.doms store.new.doms }
    ensures answer { IfOk result
        (λ r. IsAnswerOf r (IsMember x set.now) (MemberLine x set.now)
        store.old.doms store.new.doms) }
{
    let change = keep_in(store, x, set)?;
    Ok(Answer::settled(change))
}

impl Propagator for Membership {
    ghost saying = { λ p. p };

    fn propagate(&self, store: &mut Store) -> Result<Answer, AllocError> {
        keep_member(store, self.x, &self.set)
    }
}

//! Terms that aren't equal.
ghost use Rattle.std.specs.Prelude.{◌≡◌, ◌≢◌, ℤ, List, length, IfOk};
ghost use Rattle.fz_sets.specs.Sets.{IsInSet};
ghost use Rattle.fz_spec.specs.Constraints.{term_value};
ghost use Rattle.fz_strength.specs.Domains.{term_set, IsTermOf};
ghost use Rattle.fz_strength.specs.Events.{IsOnly};
ghost use Rattle.fz_spec.specs.declared.shape.Relation.TheVariants.{NotEqual};
ghost use Rattle.fz_prop.specs.Answers.{IsCorrectOf};
ghost use Rattle.fz_prop.specs.Stores.{Shrinks};
ghost use Rattle.fz_rel.specs.Truths.{TruthOf, IsAnswerAs};

use fz_prop::terms::{remove, value_of};
use fz_prop::{Answer, Store};
use fz_spec::term::Term;
use std::alloc::AllocError;

/// Narrows a store so that two terms aren't equal: where one is fixed, its number leaves the other.
pub fn keep_apart(store: &mut Store, x: Term, y: Term) -> Result<Answer, AllocError>
    requires x { IsTermOf (length store.old.doms) x }
    requires y { IsTermOf (length store.old.doms) y }
    ensures shrinks { Shrinks store.old store.new }
    ensures correct { IsCorrectOf (TruthOf NotEqual x y) store.old.doms store.new.doms }
    ensures answer { IfOk result (λ r. IsAnswerAs NotEqual x y r store.old.doms store.new.doms) }
{
    if let Some(value) = value_of(store, x) {
        return exclude(store, x, y, value);
    }
    if let Some(value) = value_of(store, y) {
        return exclude(store, y, x, value);
    }
    Ok(Answer::Fix)
}

/// Removes the number of a fixed term from another term.
fn exclude(store: &mut Store, fixed: Term, other: Term, value: i32) -> Result<Answer, AllocError>
    requires fixed { IsTermOf (length store.old.doms) fixed }
    requires other { IsTermOf (length store.old.doms) other }
    requires only { IsOnly (term_set store.old.doms fixed) value }
    ensures shrinks { Shrinks store.old store.new }
    ensures correct { IsCorrectOf (TruthOf NotEqual fixed other) store.old.doms store.new.doms }
    ensures answer { IfOk result
        (λ r. IsAnswerAs NotEqual fixed other r store.old.doms store.new.doms) }
{
    let change = remove(store, other, value)?;
    Ok(Answer::settled(change))
}

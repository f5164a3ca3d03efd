//! Equations of three variables, of which one is another and a multiple of the third: on whole domains where two of them are narrow.
ghost use Rattle.std.specs.Prelude.{◌≡◌, ◌⊎◌, ◌↔◌, ℤ, List, length, neg_ℤ, IfOk, IfSome, IsNone};
ghost use Rattle.fz_sets.specs.Sets.{IsInSet};
ghost use Rattle.fz_bits.specs.Windows.{IsBit};
ghost use Rattle.fz_strength.specs.Domains.{dom_at};
ghost use Rattle.fz_prop.specs.Answers.{IsAnswerOf, IsCorrectOf};
ghost use Rattle.fz_prop.specs.Matching.{HasRoom};
ghost use Rattle.fz_prop.specs.Stores.{Shrinks};
ghost use Rattle.fz_shift.specs.Planes.{AreApart, AreInside, HasPartners, IsSmall, IsWide, PlaneTruth};

use crate::far::keep_far;
use crate::keeping::keep_near;
use fz_bits::Window;
use fz_prop::terms::window_of;
use fz_prop::{Answer, Store};
use fz_spec::term::Term;
use std::alloc::AllocError;

/// Three variables: the second less the first is to be a factor times the one across, less a number.
#[derive(Clone, Copy)]
pub struct Plane {
    pub across: u32,
    pub first: u32,
    pub second: u32,
    pub factor: i32,
    pub number: i32,
}

impl Plane {
    /// The same, of the first less the second.
    pub(crate) fn turned(self) -> Plane
        requires { IsSmall self }
        ensures { result ≡ record {
          across = self.across;
          first = self.second;
          second = self.first;
          factor = neg_ℤ self.factor;
          number = neg_ℤ self.number;
        } }
    {
        Plane {
            across: self.across,
            first: self.second,
            second: self.first,
            factor: -self.factor,
            number: -self.number,
        }
    }
}

/// Narrows a store so that three variables lie on a plane: each keeps the numbers that have partners in the other two. `None` where the
/// one across or both others are more than 64 wide; then nothing is done.
///
/// # Errors
/// `AllocError` where there is no memory for a domain; the store is then narrower, and no assignment is lost.
pub fn keep_plane(store: &mut Store, plane: Plane) -> Result<Option<Answer>, AllocError>
    requires inside { AreInside (length store.old.doms) plane }
    requires small { IsSmall plane }
    requires apart { AreApart plane }
    ensures shrinks { Shrinks store.old store.new }
    ensures correct { IsCorrectOf (PlaneTruth plane) store.old.doms store.new.doms }
    ensures answer { IfOk result (λ o. IfSome o (λ r.
        IsAnswerOf r (PlaneTruth plane) (HasPartners plane) store.old.doms store.new.doms)) }
    ensures wide { IfOk result (λ o. IsNone o → (store.new ≡ store.old)
        × (IsWide (dom_at store.old.doms plane.across)
        ⊎ (IsWide (dom_at store.old.doms plane.first)
        × IsWide (dom_at store.old.doms plane.second)))) }
{
    let Some(across) = window_of(store, Term::Var(plane.across)) else {
        return Ok(None);
    };
    if let Some(first) = window_of(store, Term::Var(plane.first)) {
        return Ok(Some(keep_sides(store, plane, across, first)?));
    }
    let Some(second) = window_of(store, Term::Var(plane.second)) else {
        return Ok(None);
    };
    Ok(Some(keep_sides(store, plane.turned(), across, second)?))
}

/// The same, where windows have what was left of the one across and of the first.
fn keep_sides(
    store: &mut Store,
    plane: Plane,
    across: Window,
    first: Window,
) -> Result<Answer, AllocError>
    requires inside { AreInside (length store.old.doms) plane }
    requires small { IsSmall plane }
    requires apart { AreApart plane }
    requires across_room { HasRoom across.base }
    requires first_room { HasRoom first.base }
    requires across { (u : ℤ) → IsBit across.base across.bits u
        ↔ IsInSet (dom_at store.old.doms plane.across) u }
    requires first { (w : ℤ) → IsBit first.base first.bits w
        ↔ IsInSet (dom_at store.old.doms plane.first) w }
    ensures shrinks { Shrinks store.old store.new }
    ensures correct { IsCorrectOf (PlaneTruth plane) store.old.doms store.new.doms }
    ensures answer { IfOk result (λ r.
        IsAnswerOf r (PlaneTruth plane) (HasPartners plane) store.old.doms store.new.doms) }
{
    let kept = match window_of(store, Term::Var(plane.second)) {
        Some(second) => keep_near(store, plane, across, first, second)?,
        None => keep_far(store, plane, across, first)?,
    };
    if !kept {
        return Ok(Answer::Failed);
    }
    Ok(rested(store, plane))
}

/// What is known of three variables each of whose numbers has partners in the other two.
fn rested(store: &Store, plane: Plane) -> Answer
    requires inside { AreInside (length store.now.doms) plane }
    requires partners { HasPartners plane store.now.doms }
    ensures { (ds : List (List (ℤ × ℤ)))
        → IsAnswerOf result (PlaneTruth plane) (HasPartners plane) ds store.now.doms }
{
    if store.dom(plane.across).is_fixed() && store.dom(plane.first).is_fixed() {
        Answer::Subsumed
    } else {
        Answer::Fix
    }
}

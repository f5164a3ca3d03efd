//! Spaces.
ghost use Rattle.std.specs.Prelude.{◌≡◌, ◌<◌, ◌≤◌, ◌++◌, ◌∷◌, [], ℤ, List, Option, None, Some, length, true, IfOk, OnOk, OnErr};
ghost use Rattle.std.specs.List.{slice_get};
ghost use Rattle.std.specs.Arc.{arc_value};
ghost use Rattle.fz_spec.specs.Instance.{IsWhole};
ghost use Rattle.fz_tree.specs.declared.decision.Decision.{Decision};
ghost use Rattle.fz_search_space.specs.Spaces.{Spaced, AllBetter, Covers, IsNarrower, IsStatus};
ghost use Rattle.fz_space.specs.Alive.{HasRun, HaveLines};

use crate::contents::Contents;
use fz_dom::Dom;
use fz_model::Assignment;
use fz_prop::Store;
use fz_region::Choice;
use fz_search_space::{SearchSpace, Status};
use std::alloc::{AllocError, AllocFailed, Global};
use std::marker::Model;
use std::sync::Arc;

/// The domains that a model's constraints leave below some decisions. It is moved often, so what it has stands in a box.
#[derive(Drop)]
pub struct Space {
    contents: Box<Contents>,
}

impl Model for Space {
    ghost use Rattle.fz_search_space.specs.Spaces.{Spaced};

    ghost Value = { Spaced };

    ghost view = { λ s. s.contents.value };
}

impl Space {
    /// Its store.
    pub fn store(&self) -> &Store
        ensures { result.now.doms ≡ self.now.doms }
    {
        self.contents.store()
    }

    /// Runs the next propagator, if one is queued; whether one ran. In a space that has failed none runs; one whose propagator finds
    /// that nothing is left has failed from then on.
    ///
    /// # Errors
    /// `AllocError` where there is no memory; the space covers what it covered, and can be asked again.
    pub fn advance(&mut self) -> Result<bool, AllocError>
        ensures model { self.new.model ≡ self.old.model }
        ensures covers { (known : Option (List ℤ)) (ds : List Decision)
            → Covers known ds self.old → Covers known ds self.new }
        ensures ran { IfOk result (λ b. HasRun b self.old self.new) }
        ensures narrower { OnOk result (IsNarrower self.new self.old) }
        ensures stays { self.old.failed ≡ true → self.new.failed ≡ true }
    {
        self.contents.advance()
    }
}

impl SearchSpace for Space {
    ghost accepts = { λ m. Unit {0} };

    ghost spaced = { λ s. s };

    fn root(
        alloc: Global,
        model: Arc<fz_model::Model>,
    ) -> Result<Space, AllocFailed<Arc<fz_model::Model>>> {
        match root_of(alloc, &model) {
            Ok(space) => Ok(space),
            Err(_) => Err(AllocFailed { value: model }),
        }
    }

    /// What has failed stays so; a decision on a variable that the model lacks makes the space failed.
    ///
    /// # Errors
    /// `AllocError` where there is no memory; the space is left as it was.
    fn commit(&mut self, choice: &Choice, alternative: u32) -> Result<(), AllocError>
        requires { alternative < length choice.now }
        ensures model { self.new.model ≡ self.old.model }
        ensures covers { OnOk result ((known : Option (List ℤ)) (ds : List Decision) (d : Decision)
            → slice_get choice.now alternative ≡ Some d
            → Covers known ds self.old → Covers known (ds ++ d ∷ []) self.new) }
        ensures narrower { OnOk result (IsNarrower self.new self.old) }
        ensures stays { self.old.failed ≡ true → self.new.failed ≡ true }
        ensures lacking { OnOk result ((d : Decision) → slice_get choice.now alternative ≡ Some d
            → length self.old.model.variables ≤ d.variable → self.new.failed ≡ true) }
        ensures err { OnErr result (self.new ≡ self.old) }
    {
        self.contents.commit(choice, alternative)
    }

    /// What has failed stays so.
    ///
    /// # Errors
    /// `AllocError` where there is no memory; the space is left as it was.
    fn tell_bound(&mut self, known: &Assignment) -> Result<(), AllocError>
        requires { IsWhole self.old.model known.now }
        ensures model { self.new.model ≡ self.old.model }
        ensures covers { OnOk result ((ds : List Decision)
            → Covers (Some known.now) ds self.old → Covers (Some known.now) ds self.new) }
        ensures better { OnOk result (AllBetter known.now self.new) }
        ensures narrower { OnOk result (IsNarrower self.new self.old) }
        ensures stays { self.old.failed ≡ true → self.new.failed ≡ true }
        ensures err { OnErr result (self.new ≡ self.old) }
    {
        self.contents.tell_bound(known)
    }

    /// At a branch the line of each constraint holds. What has failed stays so.
    ///
    /// # Errors
    /// `AllocError` where there is no memory; the space covers what it covered, and can be asked again.
    fn status(&mut self) -> Result<Status, AllocError>
        ensures model { self.new.model ≡ self.old.model }
        ensures covers { (known : Option (List ℤ)) (ds : List Decision)
            → Covers known ds self.old → Covers known ds self.new }
        ensures answer { IfOk result (λ status. IsStatus status self.new) }
        ensures lines { IfOk result
            (λ status. HaveLines status self.new.model self.new.doms) }
        ensures narrower { OnOk result (IsNarrower self.new self.old) }
        ensures stays { self.old.failed ≡ true → self.new.failed ≡ true }
    {
        self.contents.status()
    }

    fn model(&self) -> &fz_model::Model {
        self.contents.model()
    }

    fn doms(&self) -> &[Dom] {
        self.contents.doms()
    }

    fn closed(&self) -> usize {
        self.contents.closed()
    }

    fn least(&self, alloc: Global) -> Result<Assignment, AllocError> {
        self.contents.least(alloc)
    }

    fn copy(&self) -> Result<Space, AllocError> {
        let contents = self.contents.copy()?;
        let contents = Box::new(*Box::allocator(&self.contents), contents)?;
        Ok(Space { contents })
    }

    fn copy_from(&mut self, other: &Space) -> Result<(), AllocError> {
        self.contents.copy_from(&other.contents)
    }
}

/// The space of a model's root.
fn root_of(alloc: Global, model: &Arc<fz_model::Model>) -> Result<Space, AllocError>
    ensures model { IfOk result (λ s. s.model ≡ arc_value model.now) }
    ensures covers { IfOk result (λ s. Covers None [] s) }
{
    let contents = Contents::root(alloc, model.clone()?)?;
    let contents = Box::new(alloc, contents)?;
    Ok(Space { contents })
}

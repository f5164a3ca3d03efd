//! What a path asks of a space.
ghost use Rattle.std.specs.Prelude.{◌≡◌, ◌<◌, ◌++◌, ◌∷◌, [], ℤ, List, Option, None, Some, false, length, map, IfOk, IfErr, OnOk};
ghost use Rattle.std.specs.List.{slice_get};
ghost use Rattle.std.specs.Arc.{arc_value};
ghost use Rattle.fz_dom.specs.Shape.{least};
ghost use Rattle.fz_spec.specs.Instance.{Instance, IsWhole};
ghost use Rattle.fz_tree.specs.declared.decision.Decision.{Decision};
ghost use Rattle.fz_branch.specs.Picks.{AreClosed};
ghost use Rattle.fz_search_space.specs.Spaces.{Spaced, AreDomains, AllBetter, Covers, IsNarrower, IsStatus};

use fz_dom::Dom;
use fz_model::{Assignment, Model};
use fz_region::Choice;
use std::alloc::{AllocError, AllocFailed, Global};
use std::sync::Arc;

/// What is known of a node once its space has come to rest.
#[derive(Clone, Copy, Debug, PartialEq, Eq)]
pub enum Status {
    /// No satisfying assignment is there that betters what is known.
    Failed,
    /// One assignment is left, and it satisfies.
    Solved,
    /// Some variable has more than one value left.
    Branch,
}

/// The domains that a model's constraints leave below some decisions.
pub trait SearchSpace: Drop {
    ghost accepts: { Instance → Type 0 };

    ghost spaced: { Self → Spaced };

    /// The space of the root.
    ///
    /// # Errors
    /// `AllocFailed` with the model, where there is no memory.
    fn root(alloc: Global, model: Arc<Model>) -> Result<Self, AllocFailed<Arc<Model>>>
        requires { accepts (arc_value model) }
        ensures model { IfOk result (λ s. (spaced s).model ≡ arc_value model) }
        ensures covers { IfOk result (λ s. Covers None [] (spaced s)) }
        ensures err { IfErr result (λ refused. refused.value ≡ model) };

    /// Takes an alternative of a choice.
    ///
    /// # Errors
    /// `AllocError` where there is no memory.
    fn commit(&mut self, choice: &Choice, alternative: u32) -> Result<(), AllocError>
        requires { alternative < length choice.now }
        ensures model { (spaced self.new).model ≡ (spaced self.old).model }
        ensures covers { OnOk result ((known : Option (List ℤ)) (ds : List Decision) (d : Decision)
            → slice_get choice.now alternative ≡ Some d
            → Covers known ds (spaced self.old) → Covers known (ds ++ d ∷ []) (spaced self.new)) }
        ensures narrower { OnOk result (IsNarrower (spaced self.new) (spaced self.old)) };

    /// Keeps what is better than an assignment that is known.
    ///
    /// # Errors
    /// `AllocError` where there is no memory.
    fn tell_bound(&mut self, known: &Assignment) -> Result<(), AllocError>
        requires { IsWhole (spaced self.old).model known.now }
        ensures model { (spaced self.new).model ≡ (spaced self.old).model }
        ensures covers { OnOk result ((ds : List Decision)
            → Covers (Some known.now) ds (spaced self.old)
            → Covers (Some known.now) ds (spaced self.new)) }
        ensures narrower { OnOk result (IsNarrower (spaced self.new) (spaced self.old)) }
        ensures better { OnOk result (AllBetter known.now (spaced self.new)) };

    /// Comes to rest, and says what is known then.
    ///
    /// # Errors
    /// `AllocError` where there is no memory.
    fn status(&mut self) -> Result<Status, AllocError>
        ensures model { (spaced self.new).model ≡ (spaced self.old).model }
        ensures covers { OnOk result ((known : Option (List ℤ)) (ds : List Decision)
            → Covers known ds (spaced self.old) → Covers known ds (spaced self.new)) }
        ensures narrower { OnOk result (IsNarrower (spaced self.new) (spaced self.old)) }
        ensures answer { IfOk result (λ status. IsStatus status (spaced self.new)) };

    /// The model that it is a space of.
    fn model(&self) -> &Model
        ensures { result.now ≡ (spaced self.now).model };

    /// A domain for each variable.
    fn doms(&self) -> &[Dom]
        ensures doms { result.now ≡ (spaced self.now).doms }
        ensures domains { AreDomains (spaced self.now).doms };

    /// A variable before which none has more than one value left, where the space hasn't failed; the first one always is.
    fn closed(&self) -> usize
        ensures { (spaced self.now).failed ≡ false → AreClosed result (spaced self.now).doms };

    /// The least number of each domain.
    ///
    /// # Errors
    /// `AllocError` where there is no memory.
    fn least(&self, alloc: Global) -> Result<Assignment, AllocError>
        ensures { IfOk result (λ a. a ≡ map least (spaced self.now).doms) };

    /// Another space that is the same.
    ///
    /// # Errors
    /// `AllocError` where there is no memory.
    fn copy(&self) -> Result<Self, AllocError>
        ensures { IfOk result (λ s. spaced s ≡ spaced self.now) };

    /// Becomes the same as another.
    ///
    /// # Errors
    /// `AllocError` where there is no memory.
    fn copy_from(&mut self, other: &Self) -> Result<(), AllocError>
        ensures { OnOk result (spaced self.new ≡ spaced other.now) };
}

//! Keeping what is better than what is known.
ghost use Rattle.std.specs.Prelude.{◌≡◌, ℕ, ℤ, pos, ◌-ℤ◌, List, Some, true, false, OnOk, OnErr};
ghost use Rattle.fz_sets.specs.Sets.{IsWithinLimits};
ghost use Rattle.fz_spec.specs.Constraints.{term_value};
ghost use Rattle.fz_spec.specs.Instance.{IsWhole};
ghost use Rattle.fz_strength.specs.Sayings.{Saying};
ghost use Rattle.fz_prop.specs.declared.kept.Kept.{Kept};
ghost use Rattle.fz_prop.specs.Told.{AreTold};
ghost use Rattle.fz_tree.specs.declared.decision.Decision as tree;
ghost use Rattle.fz_engine.specs.Runs.{IsAlive};
ghost use Rattle.fz_search_space.specs.Spaces.{AllBetter, Covers, IsNarrower};
ghost use Rattle.fz_space.specs.Alive.{spaced, FrontFixed, AreSettled, IsBound};

use crate::commit::take;
use fz_engine::Network;
use fz_model::{Assignment, Goal, Model, Term, value_of};
use fz_prop::Store;
use fz_tree::decision::{Comparison, Decision};
use std::alloc::AllocError;

/// A store and whether it has failed become those of the assignments that better one that is known. What has failed stays so.
///
/// # Errors
/// `AllocError` where there is no memory; all is left as it was.
pub fn keep_better(
    network: &Network,
    store: &mut Store,
    failed: &mut bool,
    known: &Assignment,
) -> Result<(), AllocError>
    requires { IsWhole network.now.model known.now }
    ensures alive { (states : List ℕ) → (failed.old ≡ false → IsAlive network.now states store.old)
        → failed.new ≡ false → IsAlive network.now states store.new }
    ensures told { (sayings : List Saying) (kept : List Kept)
        → AreTold sayings kept store.old.doms → AreTold sayings kept store.new.doms }
    ensures settled { (numbers : List ℤ)
        → AreSettled numbers store.old.doms → AreSettled numbers store.new.doms }
    ensures front { (n : ℕ) → (failed.old ≡ false → FrontFixed n store.old.doms)
        → failed.new ≡ false → FrontFixed n store.new.doms }
    ensures covers { OnOk result ((ds : List tree.Decision)
        → Covers (Some known.now) ds (spaced network.now.model store.old failed.old)
        → Covers (Some known.now) ds (spaced network.now.model store.new failed.new)) }
    ensures better { OnOk result ((states : List ℕ)
        → (failed.old ≡ false → IsAlive network.now states store.old)
        → AllBetter known.now (spaced network.now.model store.new failed.new)) }
    ensures narrower { OnOk result (IsNarrower
        (spaced network.now.model store.new failed.new)
        (spaced network.now.model store.old failed.old)) }
    ensures stays { failed.old ≡ true → failed.new ≡ true }
    ensures store_on_err { OnErr result (store.new ≡ store.old) }
    ensures failed_on_err { OnErr result (failed.new ≡ failed.old) }
{
    match bound_of(network.model(), known) {
        Some(decision) => take(store, failed, decision),
        None => {
            *failed = true;
            Ok(())
        }
    }
}

/// The decision that an assignment meets exactly where it betters one that is known; `None` where none betters it.
fn bound_of(model: &Model, known: &Assignment) -> Option<Decision>
    requires { IsWhole model.now known.now }
    ensures { IsBound model.now known.now result }
{
    match *model.goal() {
        Goal::Minimize(Term::Var(variable)) => Some(Decision {
            variable,
            comparison: Comparison::AtMost,
            value: below(number_of(variable, known)),
        }),
        Goal::Maximize(Term::Var(variable)) => Some(Decision {
            variable,
            comparison: Comparison::Above,
            value: number_of(variable, known),
        }),
        Goal::Minimize(Term::Num(_)) | Goal::Maximize(Term::Num(_)) | Goal::Satisfy => None,
    }
}

/// The number of a variable in an assignment.
fn number_of(variable: u32, known: &Assignment) -> i32
    ensures number { result ≡ term_value known.now (Term.Var variable) }
    ensures limits { IsWithinLimits result }
{
    value_of(Term::Var(variable), known.values())
}

/// The number before a number.
fn below(number: i32) -> i32
    requires { IsWithinLimits number }
    ensures { result ≡ (number -ℤ pos 1) }
{
    number - 1
}

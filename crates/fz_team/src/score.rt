//! Scores.
ghost use Rattle.std.specs.Prelude.{◌≡◌, ◌<◌, ◌^◌, nat_abs};
ghost use Rattle.fz_spec.specs.Instance.{Satisfies, score};

use fz_model::{Assignment, Goal, Model};

/// More than the score of any satisfying assignment.
pub const NO_SCORE: u64 = 1 << 32;

#[tactic(auto, using(fz_tree::proofs::Orders::declared_length))]
/// How far the goal's value is above the least number where it is to be as little as it may, or below the greatest.
pub fn score_of(model: &Model, assignment: &Assignment) -> u64
    requires { Satisfies model.now assignment.now }
    ensures score { result ≡ nat_abs (score model.now assignment.now) }
    ensures small { result < 2 ^ 32 }
{
    match model.goal() {
        Goal::Satisfy => 0,
        Goal::Minimize(_) | Goal::Maximize(_) => model.score(assignment),
    }
}

//! What a run of a propagator costs.
ghost use Rattle.std.specs.Prelude.{◌≡◌};
ghost use Rattle.fz_strength.specs.Sayings.{cost_of};
ghost use Rattle.fz_strength.specs.Costs.{cost_of_operands};
ghost use Rattle.fz_says.specs.Said.{said_by};

use crate::saying::Saying;
use fz_strength::cost::Cost;

impl<'m> Saying<'m> {
    /// The class of what a run of its propagator costs.
    pub fn cost(&self) -> Cost
        ensures { result ≡ cost_of (said_by self.now) }
    {
        match self {
            Saying::Member(..) => Cost::Unary,
            Saying::Compare(..) | Saying::MemberIf(..) => Cost::Binary,
            Saying::CompareIf(..) => Cost::Ternary,
            Saying::Clause(positives, negatives, _) => {
                cost_of_operands(positives.len() + negatives.len())
            }
            Saying::AnyOf(terms, _) | Saying::AllOf(terms, _) | Saying::Equals(_, terms, _) => {
                cost_of_operands(terms.as_slice().len())
            }
            Saying::Differ(_)
            | Saying::SumByNumbers(..)
            | Saying::Share(..)
            | Saying::Inverse(..)
            | Saying::Count(..) => Cost::Quadratic,
            Saying::Row(..) | Saying::Regular(..) | Saying::DifferByBounds(_) => Cost::Cubic,
            _ => Cost::Linear,
        }
    }
}

/// The class of what is said of that many terms and a result.
fn cost_of_operands(count: usize) -> Cost
    ensures { result ≡ cost_of_operands count }
{
    match count {
        1 => Cost::Binary,
        2 => Cost::Ternary,
        _ => Cost::Linear,
    }
}

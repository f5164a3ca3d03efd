//! Choices.
ghost use Rattle.std.specs.Prelude.{◌≡◌, ◌≤◌, ◌<◌, ◌↔◌, length, slice_index_or, IsTrue, IfOk};
ghost use Rattle.fz_sets.specs.Sets.{set_size};
ghost use Rattle.fz_tree.specs.Choice.{pair_of, IsChoice};
ghost use Rattle.fz_region.specs.Each.{each_of};

use crate::value::value_at;
use fz_dom::Dom;
use fz_tree::decision::{Comparison, Decision};
use std::alloc::{AllocError, Global};
use std::marker::Model;
use std::sync::Arc;

/// A choice among decisions on one variable: one and its negation, or one for each value of a set.
///
/// Contracts see it as the list of its decisions. Each assignment meets at most one of them.
#[derive(Drop)]
pub struct Choice {
    alternatives: Alternatives,
}

/// A decision and its negation stand where they are; a set is shared by the edges that come from one choice.
#[derive(Drop)]
pub enum Alternatives {
    Pair(Decision),
    Each(u32, Arc<Dom>),
}

impl Model for Choice {
    ghost use Rattle.std.specs.Prelude.{List};
    ghost use Rattle.fz_tree.specs.declared.decision.Decision.{Decision};

    ghost Value = { List Decision };

    ghost use Rattle.fz_region.specs.Alternatives.{decisions_of};

    ghost view = { λ c. decisions_of c.alternatives };

    ghost use Rattle.fz_tree.specs.Choice.{IsChoice};

    ghost invariant = { λ c. IsChoice (decisions_of c.alternatives) };
}

impl Choice {
    /// The decision, then its negation. It takes no memory, and so leaves the allocator alone.
    pub fn two(_alloc: Global, decision: Decision) -> Choice
        ensures { result ≡ pair_of decision }
    {
        Choice {
            alternatives: Alternatives::Pair(decision),
        }
    }

    /// One alternative for each value of a set that has several, in rising order.
    ///
    /// # Errors
    /// `AllocError` where there is no memory.
    pub fn each(alloc: Global, variable: u32, values: &Dom) -> Result<Choice, AllocError>
        requires { 2 ≤ set_size values.now }
        ensures { IfOk result (λ c. c ≡ each_of variable values.now) }
    {
        let values = Arc::new(alloc, values.copy()?)?;
        Ok(Choice {
            alternatives: Alternatives::Each(variable, values),
        })
    }

    /// How many alternatives there are.
    pub fn len(&self) -> u32
        ensures len { result ≡ length self.now }
        ensures choice { IsChoice self.now }
    {
        match &self.alternatives {
            Alternatives::Pair(_) => 2,
            Alternatives::Each(_, values) => values.size() as u32,
        }
    }

    /// An alternative, from 0.
    pub fn decision(&self, alternative: u32) -> Decision
        requires { alternative < length self.now }
        ensures { result ≡ slice_index_or self.now alternative result }
    {
        match &self.alternatives {
            Alternatives::Pair(decision) => {
                if alternative == 0 {
                    *decision
                } else {
                    decision.negated()
                }
            }
            Alternatives::Each(variable, values) => Decision {
                variable: *variable,
                comparison: Comparison::Equal,
                value: value_at(values, u64::from(alternative)),
            },
        }
    }

    /// Whether the two have the same alternatives.
    pub fn same(&self, other: &Choice) -> bool
        ensures { IsTrue result ↔ (self.now ≡ other.now) }
    {
        match (&self.alternatives, &other.alternatives) {
            (Alternatives::Pair(this), Alternatives::Pair(that)) => this == that,
            (Alternatives::Each(this, these), Alternatives::Each(that, those)) => {
                let _ = those.size();
                this == that && these.same(those)
            }
            _ => false,
        }
    }

    /// The same choice once more. Its values, where there are several, are shared.
    ///
    /// # Errors
    /// `AllocError` where a choice of more than two has too many owners; one of two takes no memory.
    pub fn copy(&self) -> Result<Choice, AllocError>
        ensures copy { IfOk result (λ c. c ≡ self.now) }
        ensures choice { IsChoice self.now }
    {
        let alternatives = match &self.alternatives {
            Alternatives::Pair(decision) => Alternatives::Pair(*decision),
            Alternatives::Each(variable, values) => Alternatives::Each(*variable, values.clone()?),
        };
        Ok(Choice { alternatives })
    }
}

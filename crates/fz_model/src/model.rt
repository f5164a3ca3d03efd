//! Models.
ghost use Rattle.std.specs.Prelude.{◌≡◌, ◌↔◌, IfOk, IsTrue, pos, ◌≢◌, ◌<◌, ◌^◌, ◌-ℤ◌};
ghost use Rattle.fz_sets.specs.Sets.{IsWithinLimits, LEAST, GREATEST};
ghost use Rattle.fz_spec.specs.declared.goal.Goal.TheVariants.{Satisfy};
ghost use Rattle.fz_spec.specs.Instance.{Instance, score, IsWhole};
ghost use Rattle.fz_model.specs.Kept.{IsModel};

use crate::assignment::{Assignment, value_of};
use crate::constraints::Constraints;
use crate::output::Output;
use crate::part::{Part, are_same, copies};
use crate::search::SearchPart;
use crate::variable::Variable;
use fz_spec::goal::Goal;
use std::alloc::AllocError;

/// A model: variables and output items in the order of declaration, constraints and search parts in the order of the text.
#[derive(Drop)]
pub struct Model {
    variables: Vec<Variable>,
    constraints: Constraints,
    goal: Goal,
    outputs: Vec<Output>,
    search: Vec<SearchPart>,
}

impl std::marker::Model for Model {
    ghost use Rattle.fz_spec.specs.Instance.{Instance};
    ghost use Rattle.fz_model.specs.Kept.{IsModel};

    ghost Value = { Instance };

    ghost view = { λ m. record {
      variables = m.variables.items;
      constraints = m.constraints;
      goal = m.goal;
      outputs = m.outputs.items;
      search = m.search.items;
    } };

    ghost invariant = { λ m. IsModel (record {
      variables = m.variables.items;
      constraints = m.constraints;
      goal = m.goal;
      outputs = m.outputs.items;
      search = m.search.items;
    }) };
}

impl Model {
    /// A model of these parts, which `IsModel` lists: at most 1,000,000 variables, as many constraints, and as many elements of a
    /// list and ranges of a set; numbers within the limits; variables of the model, of the kind that is asked; of each constraint
    /// the arguments that its row asks; of each output item a shape of as many elements as it has terms. It takes no memory.
    pub fn new(
        variables: Vec<Variable>,
        constraints: Constraints,
        goal: Goal,
        outputs: Vec<Output>,
        search: Vec<SearchPart>,
    ) -> Model
        requires { IsModel (record {
          variables = variables.items;
          constraints = constraints;
          goal = goal;
          outputs = outputs.items;
          search = search.items;
        }) }
        ensures { result ≡ record {
          variables = variables.items;
          constraints = constraints;
          goal = goal;
          outputs = outputs.items;
          search = search.items;
        } }
    {
        Model {
            variables,
            constraints,
            goal,
            outputs,
            search,
        }
    }

    /// The variables, in the order of declaration.
    pub fn variables(&self) -> &[Variable]
        ensures variables { result.now ≡ self.now.variables }
        ensures kept { IsModel self.now }
    {
        &self.variables
    }

    /// The constraints, in the order of the text.
    pub fn constraints(&self) -> &Constraints
        ensures constraints { result.now ≡ self.now.constraints }
        ensures kept { IsModel self.now }
    {
        &self.constraints
    }

    /// What is searched for.
    pub fn goal(&self) -> &Goal
        ensures goal { result.now ≡ self.now.goal }
        ensures kept { IsModel self.now }
    {
        &self.goal
    }

    /// The output items, in the order of declaration.
    pub fn outputs(&self) -> &[Output]
        ensures outputs { result.now ≡ self.now.outputs }
        ensures kept { IsModel self.now }
    {
        &self.outputs
    }

    /// The parts of the search, in order.
    pub fn search(&self) -> &[SearchPart]
        ensures search { result.now ≡ self.now.search }
        ensures kept { IsModel self.now }
    {
        &self.search
    }

    /// Another model of the same parts.
    pub fn copy(&self) -> Result<Model, AllocError>
        ensures { IfOk result (λ m. m ≡ self.now) }
    {
        let alloc = *self.variables.allocator();
        let variables = copies(alloc, &self.variables)?;
        let constraints = self.constraints.copy()?;
        let outputs = copies(alloc, &self.outputs)?;
        let search = copies(alloc, &self.search)?;
        Ok(Model {
            variables,
            constraints,
            goal: self.goal,
            outputs,
            search,
        })
    }

    /// Whether all parts of the two are equal.
    pub fn same(&self, other: &Model) -> bool
        ensures { IsTrue result ↔ (self.now ≡ other.now) }
    {
        are_same(&self.variables, &other.variables)
            && self.constraints.same(&other.constraints)
            && self.goal == other.goal
            && are_same(&self.outputs, &other.outputs)
            && are_same(&self.search, &other.search)
    }

    /// The score of an assignment, which is the less the better: how far the goal's value is above the least number of the
    /// language where it is to be minimised, or below the greatest where it is to be maximised.
    pub fn score(&self, assignment: &Assignment) -> u64
        requires goal { self.now.goal ≢ Satisfy }
        requires whole { IsWhole self.now assignment.now }
        ensures score { pos result ≡ score self.now assignment.now }
        ensures below { result < 2 ^ 32 }
    {
        match self.goal {
            Goal::Satisfy => unreachable!(),
            Goal::Minimize(term) => above_least(value_of(term, assignment.values())),
            Goal::Maximize(term) => below_greatest(value_of(term, assignment.values())),
        }
    }
}

/// How far a number is above the least one.
fn above_least(number: i32) -> u64
    requires { IsWithinLimits number }
    ensures score { pos result ≡ number -ℤ LEAST }
    ensures below { result < 2 ^ 32 }
{
    u64::from(number.abs_diff(-2_147_483_646))
}

/// How far a number is below the greatest one.
fn below_greatest(number: i32) -> u64
    requires { IsWithinLimits number }
    ensures score { pos result ≡ GREATEST -ℤ number }
    ensures below { result < 2 ^ 32 }
{
    u64::from(number.abs_diff(2_147_483_646))
}

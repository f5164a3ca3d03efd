//! Plans.
ghost use Rattle.std.specs.Prelude.{◌≡◌, ◌<◌, true, length, slice_index_or, IfOk};
ghost use Rattle.std.specs.List.{range_with_len};
ghost use Rattle.fz_spec.specs.Instance as instance;
ghost use Rattle.fz_branch.specs.Plans.{plan_of, plan_by, plan_asset, plan_rows, IsPlanOf, IsRising};

use crate::rising::rises_of;
use crate::shown::{all_shown, shown_in, shown_parts};
use fz_model::{Listed, Part, SearchPart};
use fz_spec::search::{Pick, Value};
use std::alloc::{AllocError, Global};
use std::marker::Model;

/// How each asset of a portfolio picks a variable and divides its values. The first follows the search parts of the model.
pub const ASSETS: [Option<(Pick, Value)>; 8] = [
    None,
    Some((Pick::FirstFail, Value::IndomainMin)),
    Some((Pick::FirstFail, Value::IndomainSplit)),
    Some((Pick::Smallest, Value::IndomainMin)),
    Some((Pick::Largest, Value::IndomainMax)),
    Some((Pick::AntiFirstFail, Value::IndomainMedian)),
    Some((Pick::InputOrder, Value::IndomainMax)),
    Some((Pick::FirstFail, Value::IndomainReverseSplit)),
];

/// In which order a search divides variables: parts, each followed until none of its variables has more than one value left.
#[derive(Drop)]
pub struct Plan {
    parts: Vec<SearchPart>,
    /// Of each part whether its variables rise.
    rises: Vec<bool>,
}

impl Model for Plan {
    ghost use Rattle.std.specs.Prelude.{List};
    ghost use Rattle.fz_spec.specs.Instance as instance;

    ghost Value = { List instance.SearchPart };

    ghost view = { λ p. p.parts.items };

    ghost use Rattle.fz_branch.specs.Plans.{AreRising};

    ghost invariant = { λ p. AreRising p.rises.items p.parts.items };
}

impl Plan {
    /// The plan of a model: its search parts, and after them all variables.
    ///
    /// # Errors
    /// `AllocError` where there is no memory.
    pub fn of(alloc: Global, model: &fz_model::Model) -> Result<Plan, AllocError>
        ensures plan { IfOk result (λ p. p ≡ plan_of model.now) }
        ensures whole { IfOk result (IsPlanOf model.now) }
    {
        let mut parts = copies(alloc, model.search())?;
        let variables = all_variables(alloc, model.variables().len() as u32)?;
        parts.push(SearchPart::new(Listed::own(variables), Pick::InputOrder, Value::IndomainMin))?;
        Plan::of_parts(alloc, parts)
    }

    /// The plan of an asset of a portfolio. Those after the first ignore the search parts of the model and take all variables.
    ///
    /// # Errors
    /// `AllocError` where there is no memory.
    pub fn of_asset(alloc: Global, model: &fz_model::Model, asset: u32) -> Result<Plan, AllocError>
        requires { asset < 8 }
        ensures plan { IfOk result (λ p. p ≡ plan_asset model.now asset) }
        ensures whole { IfOk result (IsPlanOf model.now) }
    {
        match ASSETS[asset as usize] {
            Some((pick, value)) => Plan::of_all(alloc, model, pick, value),
            None => Plan::of(alloc, model),
        }
    }

    /// The plan of all variables alone, picked and divided in this way.
    fn of_all(
        alloc: Global,
        model: &fz_model::Model,
        pick: Pick,
        value: Value,
    ) -> Result<Plan, AllocError>
        ensures plan { IfOk result (λ p. p ≡ plan_by model.now (Some (pick, value))) }
        ensures whole { IfOk result (IsPlanOf model.now) }
    {
        let variables = all_variables(alloc, model.variables().len() as u32)?;
        let mut parts = Vec::with_capacity(alloc, 1)?;
        parts.push(SearchPart::new(Listed::own(variables), pick, value))?;
        Plan::of_parts(alloc, parts)
    }

    /// The plan of a model whose rows are sought: its search parts cut down to the variables of the output, and after them all of
    /// these.
    ///
    /// # Errors
    /// `AllocError` where there is no memory.
    pub fn of_rows(alloc: Global, model: &fz_model::Model) -> Result<Plan, AllocError>
        ensures { IfOk result (λ p. p ≡ plan_rows model.now) }
    {
        let shown = shown_in(alloc, model)?;
        let mut parts = shown_parts(alloc, model, &shown)?;
        let all = all_shown(alloc, model, &shown)?;
        parts.push(SearchPart::new(Listed::own(all), Pick::InputOrder, Value::IndomainMin))?;
        Plan::of_parts(alloc, parts)
    }

    fn of_parts(alloc: Global, parts: Vec<SearchPart>) -> Result<Plan, AllocError>
        ensures { IfOk result (λ p. p ≡ parts.items) }
    {
        let rises = rises_of(alloc, &parts)?;
        Ok(Plan { parts, rises })
    }

    /// The allocator that it was made with.
    pub(crate) fn allocator(&self) -> Global {
        *self.parts.allocator()
    }

    /// The parts, in order.
    pub fn parts(&self) -> &[SearchPart]
        ensures parts { result.now ≡ self.now }
    {
        &self.parts
    }

    /// Whether the variables of a part are known to rise.
    pub(crate) fn rises(&self, place: usize) -> bool
        requires { place < length self.now }
        ensures { (p : instance.SearchPart) → result ≡ true → p ≡ slice_index_or self.now place p
            → IsRising p.variables }
    {
        self.rises[place]
    }
}

fn copies(alloc: Global, parts: &[SearchPart]) -> Result<Vec<SearchPart>, AllocError>
    ensures { IfOk result (λ v. v.items ≡ parts.now) }
{
    let mut copies = Vec::with_capacity(alloc, parts.len() + 1)?;
    for part in parts {
        copies.push(part.copy()?)?;
    }
    Ok(copies)
}

fn all_variables(alloc: Global, count: u32) -> Result<Vec<u32>, AllocError>
    ensures { IfOk result (λ v. v.items ≡ range_with_len 0 count) }
{
    let mut variables = Vec::with_capacity(alloc, count as usize)?;
    for variable in 0..count {
        variables.push(variable)?;
    }
    Ok(variables)
}

//! Splitting.
ghost use Rattle.std.specs.Prelude.{◌≡◌, ◌<◌, ◌≤◌, ◌+◌, ◌++◌, ◌∷◌, [], false, length, Some, None, IfOk, OnOk, slice_get};
ghost use Rattle.fz_branch.specs.Plans.{IsPlanOf};
ghost use Rattle.fz_search_space.specs.Spaces.{Covers, IsStatus};
ghost use Rattle.fz_part.specs.Parts.{IsPartOf};
ghost use Rattle.fz_split.specs.Splits.{IsSplit};
ghost use Rattle.fz_split.specs.Divisions.{IsDivision};
ghost use Rattle.fz_split.specs.Weights.{weight_in, weight_of};
ghost use Rattle.fz_split.specs.Fronts.{count_of, IsFront, Gains, Keeps};

use crate::division::division;
use crate::nodes::Nodes;
use crate::remade::remade;
use fz_branch::Plan;
use fz_part::Part;
use fz_region::{Choice, Decision};
use fz_search_space::{SearchSpace, Status};
use std::alloc::{AllocError, Global};

/// At most so many parts of a model, by the space of its root and a plan. Where there are fewer, no part has two satisfying
/// assignments.
///
/// # Errors
/// `AllocError` where there is no memory.
pub fn split<S: SearchSpace>(
    alloc: Global,
    root: &S,
    plan: &Plan,
    most: usize,
) -> Result<Vec<Part>, AllocError>
    requires root { Covers None [] (S.spaced root.now) }
    requires plan { IsPlanOf (S.spaced root.now).model plan.now }
    requires some { 1 ≤ most }
    ensures { IfOk result (λ parts. IsSplit (S.spaced root.now).model most parts.items) }
{
    let mut nodes = Nodes::root(alloc)?;
    'nodes: while nodes.can_grow(most) {
        expand(alloc, root, plan, most, &mut nodes)?;
    }
    nodes.into_parts()
}

/// Looks at the open node of least depth, and divides it.
fn expand<S: SearchSpace>(
    alloc: Global,
    root: &S,
    plan: &Plan,
    most: usize,
    nodes: &mut Nodes,
) -> Result<(), AllocError>
    requires root { Covers None [] (S.spaced root.now) }
    requires plan { IsPlanOf (S.spaced root.now).model plan.now }
    requires front { IsFront (S.spaced root.now).model nodes.old }
    requires room { count_of nodes.old < most }
    requires queue { 0 < length nodes.old.queue.items }
    ensures keeps { OnOk result (Keeps (S.spaced root.now).model nodes.old nodes.new) }
    ensures few { OnOk result (count_of nodes.new ≤ most) }
    ensures falls { OnOk result (weight_in (S.spaced root.now).model nodes.new.queue.items
        < weight_in (S.spaced root.now).model nodes.old.queue.items) }
{
    let Some(part) = nodes.next() else {
        unreachable!()
    };
    let mut space = remade(alloc, root, &part)?;
    let status = space.status()?;
    match status {
        Status::Branch => {
            let room = nodes.room(most);
            divide(alloc, &space, plan, &part, room, nodes)
        }
        Status::Failed => Ok(()),
        Status::Solved => nodes.add(part, Status::Solved),
    }
}

/// Divides a part by the space of its node.
fn divide<S: SearchSpace>(
    alloc: Global,
    space: &S,
    plan: &Plan,
    part: &Part,
    room: usize,
    nodes: &mut Nodes,
) -> Result<(), AllocError>
    requires covers { Covers None part.now (S.spaced space.now) }
    requires branch { IsStatus Status.Branch (S.spaced space.now) }
    requires plan { IsPlanOf (S.spaced space.now).model plan.now }
    requires part { IsPartOf (S.spaced space.now).model part.now }
    requires front { IsFront (S.spaced space.now).model nodes.old }
    requires some { 2 ≤ room }
    ensures gains { OnOk result (Gains (S.spaced space.now).model part.now nodes.old nodes.new) }
    ensures few { OnOk result (count_of nodes.new ≤ count_of nodes.old + room) }
    ensures falls { OnOk result (weight_in (S.spaced space.now).model nodes.new.queue.items
        < weight_in (S.spaced space.now).model nodes.old.queue.items
        + weight_of (S.spaced space.now).model part.now) }
{
    let _ = space.doms();
    let choice = division(alloc, space, plan, room)?;
    add_alternatives(space, part, &choice, nodes)
}

/// Adds what of a part meets each alternative.
fn add_alternatives<S: SearchSpace>(
    space: &S,
    part: &Part,
    choice: &Choice,
    nodes: &mut Nodes,
) -> Result<(), AllocError>
    requires covers { Covers None part.now (S.spaced space.now) }
    requires alive { (S.spaced space.now).failed ≡ false }
    requires division { IsDivision (S.spaced space.now).doms choice.now }
    requires part { IsPartOf (S.spaced space.now).model part.now }
    requires front { IsFront (S.spaced space.now).model nodes.old }
    ensures gains { OnOk result (Gains (S.spaced space.now).model part.now nodes.old nodes.new) }
    ensures few { OnOk result (count_of nodes.new ≤ count_of nodes.old + length choice.now) }
    ensures falls { OnOk result (weight_in (S.spaced space.now).model nodes.new.queue.items
        < weight_in (S.spaced space.now).model nodes.old.queue.items
        + weight_of (S.spaced space.now).model part.now) }
{
    let _ = space.doms();
    let _ = space.model().variables();
    'alternatives: for alternative in 0..choice.len() {
        let decision = choice.decision(alternative);
        add_alternative(space, part, choice, alternative, decision, nodes)?;
    }
    Ok(())
}

/// Adds what of a part meets an alternative.
fn add_alternative<S: SearchSpace>(
    space: &S,
    part: &Part,
    choice: &Choice,
    alternative: u32,
    decision: Decision,
    nodes: &mut Nodes,
) -> Result<(), AllocError>
    requires covers { Covers None part.now (S.spaced space.now) }
    requires is { slice_get choice.now alternative ≡ Some decision }
    requires within { alternative < length choice.now }
    requires part { IsPartOf (S.spaced space.now).model (part.now ++ decision ∷ []) }
    requires front { IsFront (S.spaced space.now).model nodes.old }
    ensures gains { OnOk result (Gains (S.spaced space.now).model (part.now ++ decision ∷ [])
        nodes.old nodes.new) }
    ensures few { OnOk result (count_of nodes.new ≤ count_of nodes.old + 1) }
    ensures falls { OnOk result (weight_in (S.spaced space.now).model nodes.new.queue.items
        ≤ weight_in (S.spaced space.now).model nodes.old.queue.items
        + weight_of (S.spaced space.now).model (part.now ++ decision ∷ [])) }
{
    let child = part.with_decision(decision)?;
    let mut below = space.copy()?;
    below.commit(choice, alternative)?;
    let status = below.status()?;
    nodes.add(child, status)
}

//! How a node is divided.
ghost use Rattle.std.specs.Prelude.{◌≡◌, ◌≤◌, true, length, IfOk};
ghost use Rattle.fz_branch.specs.Plans.{IsPlanOf, IsChosen};
ghost use Rattle.fz_branch.specs.Values.{is_open, middle};
ghost use Rattle.fz_search_space.specs.Spaces.{AreDomains, IsStatus};
ghost use Rattle.fz_split.specs.Divisions.{IsDivision};

use fz_branch::{Plan, choose_among};
use fz_dom::Dom;
use fz_region::{Choice, Comparison, Decision};
use fz_search_space::{SearchSpace, Status};
use std::alloc::{AllocError, Global};

/// The choice that a plan makes at an undecided node, of at most so many alternatives.
///
/// # Errors
/// `AllocError` where there is no memory.
pub fn division<S: SearchSpace>(
    alloc: Global,
    space: &S,
    plan: &Plan,
    room: usize,
) -> Result<Choice, AllocError>
    requires plan { IsPlanOf (S.spaced space.now).model plan.now }
    requires size { length (S.spaced space.now).doms ≡ length (S.spaced space.now).model.variables }
    requires branch { IsStatus Status.Branch (S.spaced space.now) }
    requires some { 2 ≤ room }
    ensures division { IfOk result (IsDivision (S.spaced space.now).doms) }
    ensures few { IfOk result (λ choice. length choice ≤ room) }
{
    let doms = space.doms();
    let found = choose_among(plan, doms, space.closed())?;
    match found {
        Some(choice) => Ok(within(alloc, plan, doms, choice, room)),
        None => unreachable!(),
    }
}

/// The choice, or where it has more than so many alternatives the two halves of its variable's domain.
fn within(alloc: Global, plan: &Plan, doms: &[Dom], choice: Choice, room: usize) -> Choice
    requires domains { AreDomains doms.now }
    requires chosen { IsChosen plan.now doms.now choice }
    requires some { 2 ≤ room }
    ensures division { IsDivision doms.now result }
    ensures few { length result ≤ room }
{
    let _ = plan;
    if choice.len() as usize <= room {
        return choice;
    }
    let first = choice.decision(0);
    let variable = first.variable as usize;
    let dom = &doms[variable];
    let decision = Decision {
        variable: first.variable,
        comparison: Comparison::AtMost,
        value: middle(dom),
    };
    Choice::two(alloc, decision)
}

/// The middle of the hull, rounded down.
fn middle(dom: &Dom) -> i32
    requires { is_open dom.now ≡ true }
    ensures { result ≡ middle dom.now }
{
    let sum = i64::from(dom.min()) + i64::from(dom.max());
    sum.div_euclid(2) as i32
}

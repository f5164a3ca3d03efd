//! The next choice.
ghost use Rattle.std.specs.Prelude.{◌≤◌, MatchOption, IfOk, length};
ghost use Rattle.fz_branch.specs.Picks.{AreClosed, IsPassed, IsDone};
ghost use Rattle.fz_branch.specs.Plans.{AreDone, IsChosen, IsChosenOf};

use crate::pick::picked;
use crate::plan::Plan;
use crate::rising::start_of;
use crate::value;
use fz_dom::Dom;
use fz_model::SearchPart;
use fz_region::Choice;
use std::alloc::{AllocError, Global};

/// The choice that a plan makes among these domains, one for each variable: of the first part that has a variable with more than
/// one value left. `None` exactly where no part has. No variable before `closed` has more than one, so these aren't looked at.
///
/// # Errors
/// `AllocError` where there is no memory; a choice of two takes none.
pub fn choose_among(plan: &Plan, doms: &[Dom], closed: usize) -> Result<Option<Choice>, AllocError>
    requires { AreClosed closed doms.now }
    ensures { IfOk result (λ o. MatchOption o (AreDone doms.now plan.now)
        (IsChosen plan.now doms.now)) }
{
    let alloc = plan.allocator();
    let parts = plan.parts();
    for place in 0..parts.len() {
        let part = &parts[place];
        let start = start_of(part.variables(), plan.rises(place), doms, closed);
        if let Some(choice) = choice_of(alloc, part, doms, closed, start)? {
            return Ok(Some(choice));
        }
    }
    Ok(None)
}

/// The choice of one part, of which the places before `start` are passed.
fn choice_of(
    alloc: Global,
    part: &SearchPart,
    doms: &[Dom],
    closed: usize,
    start: usize,
) -> Result<Option<Choice>, AllocError>
    requires closed { AreClosed closed doms.now }
    requires start { start ≤ length part.now.variables }
    requires passed { IsPassed start doms.now part.now.variables }
    ensures { IfOk result (λ o. MatchOption o (IsDone doms.now part.now.variables)
        (IsChosenOf doms.now part.now)) }
{
    let variables = part.variables();
    let Some(place) = picked(part.pick(), variables, doms, closed, start) else {
        return Ok(None);
    };
    let variable = variables[place];
    let choice = value::choice_of(alloc, part.value(), variable, &doms[variable as usize])?;
    Ok(Some(choice))
}

//! Goals.
ghost use Rattle.std.specs.Prelude.{◌≡◌};
ghost use Rattle.fz_language.specs.Models as models;
ghost use Rattle.fz_language.specs.Rules as rules;
ghost use Rattle.fz_syntax.specs.Trees as trees;
ghost use Rattle.fz_resolve.specs.Meant.{environment_of};
ghost use Rattle.fz_check.specs.Checked.{IsFirstOf};

use crate::declared::wrong_term;
use crate::faults::or_else;
use fz_language::fault::RuleFault;
use fz_model::Goal;
use fz_resolve::resolve::term;
use fz_resolve::{Fault, Names, fault_at};
use fz_spec::asked::Element;
use fz_spec::kind::Kind;
use fz_spec::term::Term;
use fz_syntax::floats::first_float;
use fz_syntax::{Basic, Method, SolveItem};

/// What a goal is asked to be: an integer, or an integer variable.
const GOAL_ASKED: Element = Element {
    kind: Kind::Int,
    may_vary: true,
};

/// The first rule that a solve item breaks.
pub(crate) fn solve_fault<'a>(names: &Names<'a>, solve: &SolveItem<'a>) -> Option<Fault>
    ensures { IsFirstOf (rules.solve_faults (environment_of names.now)
        (trees.solve_item_of solve.now)) result }
{
    match &solve.method {
        Method::Satisfy { .. } => None,
        Method::Minimize { objective, .. } => goal_fault(names, objective),
        Method::Maximize { objective, .. } => goal_fault(names, objective),
    }
}

/// The first rule that a goal breaks.
fn goal_fault<'a>(names: &Names<'a>, objective: &Basic<'a>) -> Option<Fault>
    ensures { IsFirstOf (rules.goal_faults (environment_of names.now)
        (trees.basic_of objective.now)) result }
{
    let unsupported = fault_at(RuleFault::Unsupported, first_float(objective));
    let unknown = fault_at(RuleFault::UnknownName, names.unknown(objective));
    let wrong = fault_at(
        RuleFault::WrongType,
        wrong_term(names, GOAL_ASKED, objective),
    );
    or_else(or_else(unsupported, unknown), wrong)
}

/// The goal of a solve item.
pub(crate) fn goal<'a>(names: &Names<'a>, solve: &SolveItem<'a>) -> Goal
    ensures { result ≡ models.goal_of (environment_of names.now) (trees.solve_item_of solve.now) }
{
    match &solve.method {
        Method::Satisfy { .. } => Goal::Satisfy,
        Method::Minimize { objective, .. } => Goal::Minimize(goal_term(names, objective)),
        Method::Maximize { objective, .. } => Goal::Maximize(goal_term(names, objective)),
    }
}

/// The term of a goal that breaks no rule.
fn goal_term<'a>(names: &Names<'a>, objective: &Basic<'a>) -> Term
    ensures { result ≡ models.goal_term (environment_of names.now) (trees.basic_of objective.now) }
{
    match term(names, GOAL_ASKED, objective) {
        Some(term) => term,
        None => Term::Num(0),
    }
}

//! A path over a tree, step by step.
ghost use Rattle.fz_tree.specs.Better.{IsModeOf};

use crate::steps::{Stepped, take_all};
use crate::values::{assignment_of, mode, shared_model, values_of};
use fz_account::{Account, Learned, Mode};
use fz_model::{Assignment, Goal};
use fz_path::{Path, Start, Step, Task};
use fz_region::{Comparison, Frontier};
use fz_script::Answer;
use fz_space::Space;
use std::alloc::{AllocError, Global};
use std::slice;

/// Takes rows of steps with an idle path of a text's model, which seeks its rows or its solutions.
pub fn run(
    alloc: Global,
    text: &str,
    seeks_rows: bool,
    rows: &[&str],
) -> Result<Answer, AllocError> {
    let Some(model) = shared_model(alloc, text)? else {
        return Ok(Answer::of(1, Vec::new(alloc)));
    };
    let mode = if seeks_rows {
        mode_of_rows(model.goal())
    } else {
        mode(model.goal())
    };
    let mut path: Path<Space> = Path::idle(alloc, model, mode, 8, 2)?;
    take_all(alloc, &mut path, rows)
}

/// What is sought of a goal: all rows, or a best solution.
fn mode_of_rows(goal: &Goal) -> Mode
    ensures { IsModeOf goal.now result }
{
    match goal {
        Goal::Satisfy => Mode::Rows,
        Goal::Minimize(_) | Goal::Maximize(_) => Mode::Best,
    }
}

impl Stepped for Path<Space> {
    fn take(&mut self, alloc: Global, step: &str) -> Result<Option<String>, AllocError> {
        let (word, rest) = step.split_once(' ').unwrap_or((step, ""));
        let answer = match word.as_bytes() {
            b"start" => String::from_str(alloc, start(alloc, self))?,
            b"near" => String::from_str(alloc, start_near(alloc, self))?,
            b"step" => String::from_str(alloc, step_of(self)?)?,
            b"report" => report(alloc, self)?,
            b"cut" => cut(alloc, self)?,
            b"learn" => String::from_str(alloc, learn(alloc, self, rest)?)?,
            b"known" => known(alloc, self)?,
            b"depth" => format!(in alloc; "{}", self.depth())?,
            b"kept" => kept(alloc, self)?,
            b"idle" => format!(in alloc; "{}", self.is_idle())?,
            _ => return Ok(None),
        };
        Ok(Some(answer))
    }
}

/// Takes up the whole tree.
fn start(alloc: Global, path: &mut Path<Space>) -> &'static str {
    match path.start(Frontier::root(alloc)) {
        Start::Started => "started",
        Start::Busy(_) => "busy",
        Start::NoMemory(_) => "no memory",
    }
}

/// Takes up a task of the whole tree; where the path is busy the task comes back.
fn start_near(alloc: Global, path: &mut Path<Space>) -> &'static str {
    match path.start_near(Task::of(Frontier::root(alloc))) {
        Start::Started => "started",
        Start::Busy(task) => {
            let depth = task.frontier().edges().len();
            if depth == 0 {
                "busy"
            } else {
                "busy with another"
            }
        }
        Start::NoMemory(_task) => "no memory",
    }
}

fn step_of(path: &mut Path<Space>) -> Result<&'static str, AllocError> {
    Ok(match path.step()? {
        Step::Expanded => "expanded",
        Step::Found => "found",
        Step::Closed => "closed",
        Step::Idle => "idle",
    })
}

fn report(alloc: Global, path: &mut Path<Space>) -> Result<String, AllocError> {
    match path.report()? {
        Some(account) => told(alloc, &account),
        None => String::from_str(alloc, "nothing"),
    }
}

/// What an account found and knows, how many parts it gave, and whether anything is left.
fn told(alloc: Global, account: &Account) -> Result<String, AllocError> {
    let found = values_of(alloc, account.found())?;
    let knows = values_of(alloc, of(account.witness()))?;
    let given = account.given().len();
    let rest = account.after().has_rest();
    format!(in alloc; "found {found}; knows {knows}; given {given}; rest {rest}")
}

/// The one assignment, or none.
fn of(assignment: Option<&Assignment>) -> &[Assignment] {
    match assignment {
        Some(assignment) => slice::from_ref(assignment),
        None => &[],
    }
}

fn cut(alloc: Global, path: &mut Path<Space>) -> Result<String, AllocError> {
    match path.cut()? {
        Some(cut) => {
            let part = part_of(alloc, cut.task.frontier())?;
            let account = told(alloc, &cut.account)?;
            format!(in alloc; "part{part}; {account}")
        }
        None => String::from_str(alloc, "nothing"),
    }
}

/// The alternative that each edge of a frontier takes.
fn part_of(alloc: Global, frontier: &Frontier) -> Result<String, AllocError> {
    let mut text = String::new(alloc);
    for place in 0..frontier.edges().len() {
        let edge = frontier.edges().edge(place);
        if edge.taken < edge.choice.len() {
            let decision = edge.choice.decision(edge.taken);
            let comparison = match decision.comparison {
                Comparison::Equal => "=",
                Comparison::NotEqual => "!=",
                Comparison::AtMost => "<=",
                Comparison::Above => ">",
            };
            text.push_str(&format!(in alloc; " {comparison} {}", decision.value)?)?;
        }
    }
    Ok(text)
}

/// The path is told a value of the one variable.
fn learn(alloc: Global, path: &mut Path<Space>, word: &str) -> Result<&'static str, AllocError> {
    let Some(known) = assignment_of(alloc, word)? else {
        return Ok("no number");
    };
    Ok(match path.learn(&known)? {
        Learned::Learned => "learned",
        Learned::Ignored => "ignored",
    })
}

fn known(alloc: Global, path: &Path<Space>) -> Result<String, AllocError> {
    values_of(alloc, of(path.known()))
}

/// Where the nearest copied space is above the first four nodes.
fn kept(alloc: Global, path: &Path<Space>) -> Result<String, AllocError> {
    let mut text = String::new(alloc);
    for node in 0..4u64 {
        match path.kept(node) {
            Some(depth) => text.push_str(&format!(in alloc; " {depth}")?)?,
            None => text.push_str(" none")?,
        }
    }
    Ok(text)
}

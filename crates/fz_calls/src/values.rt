//! What cases begin with: the model of a text, what is sought of it, and assignments.
ghost use Rattle.std.specs.Prelude.{◌≢◌};
ghost use Rattle.fz_sets.specs.Sets.{IsWithinLimits};
ghost use Rattle.fz_tree.specs.Better.{IsModeOf};

use fz_account::Mode;
use fz_model::{Assignment, Goal, Model};
use fz_reader::model_of;
use std::alloc::{AllocError, Global};
use std::sync::Arc;

/// The model of a text; none where it is refused.
pub fn shared_model(alloc: Global, text: &str) -> Result<Option<Arc<Model>>, AllocError> {
    match model_of(alloc, text.as_bytes())? {
        Ok(model) => match Arc::new(alloc, model) {
            Ok(model) => Ok(Some(model)),
            Err(_) => Err(AllocError),
        },
        Err(_) => Ok(None),
    }
}

/// What is sought of a goal: all solutions, or a best one.
pub fn mode(goal: &Goal) -> Mode
    ensures mode { IsModeOf goal.now result }
    ensures no_rows { result ≢ Mode.Rows }
{
    match goal {
        Goal::Satisfy => Mode::All,
        Goal::Minimize(_) | Goal::Maximize(_) => Mode::Best,
    }
}

/// The number within the limits that is nearest.
pub fn near(value: i32) -> i32
    ensures { IsWithinLimits result }
{
    if value < -2_147_483_646 {
        -2_147_483_646
    } else if 2_147_483_646 < value {
        2_147_483_646
    } else {
        value
    }
}

/// The assignment of a number to one variable; none where it is no number.
pub fn assignment_of(alloc: Global, word: &str) -> Result<Option<Assignment>, AllocError> {
    match word.parse::<i32>() {
        Ok(value) => Ok(Some(Assignment::new(alloc, &[near(value)])?)),
        Err(_) => Ok(None),
    }
}

/// The values of assignments, as `1 2 | 2 1`.
pub fn values_of(alloc: Global, assignments: &[Assignment]) -> Result<String, AllocError> {
    let mut text = String::new(alloc);
    for (number, assignment) in assignments.iter().enumerate() {
        if number > 0 {
            text.push_str(" | ")?;
        }
        push_values(alloc, &mut text, assignment)?;
    }
    Ok(text)
}

fn push_values(
    alloc: Global,
    text: &mut String,
    assignment: &Assignment,
) -> Result<(), AllocError> {
    for (number, value) in assignment.values().iter().enumerate() {
        if number > 0 {
            text.push_str(" ")?;
        }
        text.push_str(&format!(in alloc; "{value}")?)?;
    }
    Ok(())
}

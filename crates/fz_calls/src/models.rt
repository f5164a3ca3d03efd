//! What is said of models: whether a constraint over numbers is true, and how a search divides the root.
use fz_branch::{Plan, choose_among};
use fz_model::{Assignment, Model};
use fz_reader::model_of;
use fz_region::{Choice, Comparison};
use fz_script::Answer;
use fz_search_space::SearchSpace;
use fz_space::Space;
use fz_truth::holds;
use std::alloc::{AllocError, Global};
use std::sync::Arc;

/// Whether a constraint over numbers is true: 0, or 1, or 2 where it is refused.
pub fn truth(alloc: Global, constraint: &str) -> Result<u8, AllocError> {
    let text = format!(in alloc; "constraint {constraint}; solve satisfy;")?;
    let Ok(model) = model_of(alloc, text.as_bytes())? else {
        return Ok(2);
    };
    let empty = Assignment::new(alloc, &[])?;
    Ok(u8::from(!holds(&model, &empty)))
}

/// The alternatives at the root of a text's model.
pub fn divide(alloc: Global, text: &str) -> Result<Answer, AllocError> {
    match model_of(alloc, text.as_bytes())? {
        Ok(model) => Ok(Answer::of(0, alternatives(alloc, model)?.into_bytes())),
        Err(_) => Ok(Answer::of(1, Vec::new(alloc))),
    }
}

fn alternatives(alloc: Global, model: Model) -> Result<String, AllocError> {
    let plan = Plan::of(alloc, &model)?;
    let Ok(model) = Arc::new(alloc, model) else {
        return Err(AllocError);
    };
    let Ok(mut space) = <Space as SearchSpace>::root(alloc, model) else {
        return Err(AllocError);
    };
    space.status()?;
    match choose_among(&plan, space.doms(), 0)? {
        Some(choice) => lines_of(alloc, &choice),
        None => Ok(String::new(alloc)),
    }
}

/// A line as `0 <= 5` for each alternative.
fn lines_of(alloc: Global, choice: &Choice) -> Result<String, AllocError> {
    let mut lines = String::new(alloc);
    for alternative in 0..choice.len() {
        let decision = choice.decision(alternative);
        let comparison = match decision.comparison {
            Comparison::Equal => "=",
            Comparison::NotEqual => "!=",
            Comparison::AtMost => "<=",
            Comparison::Above => ">",
        };
        let line = format!(in alloc; "{} {comparison} {}\n", decision.variable, decision.value)?;
        lines.push_str(&line)?;
    }
    Ok(lines)
}

//! Two spaces of one model, the one at hand and a copy of it aside, step by step.
use crate::steps::{Stepped, take_all};
use crate::values::{assignment_of, shared_model};
use fz_dom::Dom;
use fz_region::{Choice, Comparison, Decision};
use fz_script::Answer;
use fz_search_space::{SearchSpace, Status};
use fz_space::Space;
use std::alloc::{AllocError, Global};
use std::mem;

#[derive(Drop)]
struct Spaces {
    space: Space,
    aside: Space,
}

/// Takes rows of steps with the space of the root of a text's model.
pub fn run(alloc: Global, text: &str, rows: &[&str]) -> Result<Answer, AllocError> {
    let Some(model) = shared_model(alloc, text)? else {
        return Ok(Answer::of(1, Vec::new(alloc)));
    };
    let Ok(space) = <Space as SearchSpace>::root(alloc, model) else {
        return Err(AllocError);
    };
    let aside = space.copy()?;
    take_all(alloc, &mut Spaces { space, aside }, rows)
}

impl Stepped for Spaces {
    fn take(&mut self, alloc: Global, step: &str) -> Result<Option<String>, AllocError> {
        let (word, rest) = step.split_once(' ').unwrap_or((step, ""));
        match word.as_bytes() {
            b"status" => return Ok(Some(status(alloc, &mut self.space)?)),
            b"is" => commit(alloc, &mut self.space, rest, Comparison::Equal)?,
            b"not" => commit(alloc, &mut self.space, rest, Comparison::NotEqual)?,
            b"better" => tell(alloc, &mut self.space, rest)?,
            b"copy" => self.aside = self.space.copy()?,
            b"over" => self.space.copy_from(&self.aside)?,
            b"swap" => mem::swap(&mut self.space, &mut self.aside),
            _ => return Ok(None),
        }
        Ok(Some(String::from_str(alloc, "done")?))
    }
}

/// What a space is at rest, and what is left of each variable where it branches or is solved.
fn status(alloc: Global, space: &mut Space) -> Result<String, AllocError> {
    let word = match space.status()? {
        Status::Failed => return String::from_str(alloc, "failed"),
        Status::Solved => "solved",
        Status::Branch => "branch",
    };
    let mut text = String::from_str(alloc, word)?;
    for dom in space.doms() {
        push_ranges(alloc, &mut text, dom)?;
    }
    Ok(text)
}

/// The ranges of a domain, as ` 1..3 5..7;`.
fn push_ranges(alloc: Global, text: &mut String, dom: &Dom) -> Result<(), AllocError> {
    for (low, high) in dom.ranges() {
        text.push_str(&format!(in alloc; " {low}..{high}")?)?;
    }
    text.push_str(";")
}

/// The first variable is a number, or it isn't.
fn commit(
    alloc: Global,
    space: &mut Space,
    word: &str,
    comparison: Comparison,
) -> Result<(), AllocError> {
    let Ok(value) = word.parse::<i32>() else {
        return Ok(());
    };
    let decision = Decision {
        variable: 0,
        comparison,
        value,
    };
    let choice = Choice::two(alloc, decision);
    if 0 < choice.len() {
        space.commit(&choice, 0)?;
    }
    Ok(())
}

/// What is better than a number of the one variable is kept.
fn tell(alloc: Global, space: &mut Space, word: &str) -> Result<(), AllocError> {
    match assignment_of(alloc, word)? {
        Some(known) if known.values().len() == space.model().variables().len() => {
            space.tell_bound(&known)
        }
        _ => Ok(()),
    }
}

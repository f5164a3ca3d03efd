//! A portfolio of two assets, each with one worker: its events and shares, one by one.
use crate::books::recorded;
use crate::machines::{event_of, word_of_answer};
use crate::steps::{Stepped, take_all};
use crate::values::{mode, shared_model};
use fz_machine::{Portfolio, Shared};
use fz_script::Answer;
use fz_space::Space;
use std::alloc::{AllocError, Global};

/// Takes rows of steps with a portfolio of a text's model.
pub fn run(alloc: Global, text: &str, rows: &[&str]) -> Result<Answer, AllocError> {
    let Some(model) = shared_model(alloc, text)? else {
        return Ok(Answer::of(1, Vec::new(alloc)));
    };
    let mode = mode(model.goal());
    let mut portfolio: Portfolio<Space> = Portfolio::new(alloc, model, mode, 2, 1, 8, 2)?;
    take_all(alloc, &mut portfolio, rows)
}

impl Stepped for Portfolio<Space> {
    fn take(&mut self, alloc: Global, step: &str) -> Result<Option<String>, AllocError> {
        let (word, rest) = step.split_once(' ').unwrap_or((step, ""));
        let answer = match word.as_bytes() {
            b"share" => share(self, rest)?,
            b"0" => return happen(alloc, self, 0, rest),
            b"1" => return happen(alloc, self, 1, rest),
            _ => return Ok(None),
        };
        Ok(Some(String::from_str(alloc, answer)?))
    }
}

/// What comes of a share from one asset to another, as `0 1`.
fn share(portfolio: &mut Portfolio<Space>, rest: &str) -> Result<&'static str, AllocError> {
    let (from, to) = match rest.as_bytes() {
        b"0 1" => (0, 1),
        b"1 0" => (1, 0),
        _ => return Ok("no share"),
    };
    if portfolio.assets() < 2 {
        return Ok("no asset");
    }
    match portfolio.share(from, to)? {
        Shared::Better => Ok("better"),
        Shared::NotBetter => Ok("not better"),
    }
}

/// What comes of an event of an asset, or its book.
fn happen(
    alloc: Global,
    portfolio: &mut Portfolio<Space>,
    asset: u32,
    step: &str,
) -> Result<Option<String>, AllocError> {
    if portfolio.assets() <= asset {
        return Ok(None);
    }
    let (word, rest) = step.split_once(' ').unwrap_or((step, ""));
    if word == "book" {
        return Ok(Some(recorded(alloc, portfolio.core(asset).book())?));
    }
    match event_of(word, rest) {
        Some(event) => {
            let answer = portfolio.apply(asset, event)?;
            Ok(Some(String::from_str(alloc, word_of_answer(answer))?))
        }
        None => Ok(None),
    }
}

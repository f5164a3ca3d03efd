//! The text of a generated model.
use fz_gen::knapsack;
use fz_script::Answer;
use std::alloc::{AllocError, Global};

/// The text of a generated model of that many items.
pub fn knapsack_of(alloc: Global, items: &str) -> Result<Answer, AllocError> {
    match items.parse::<u32>() {
        Ok(items) if 1 <= items && items <= 1000 => Ok(Answer::of(0, knapsack(alloc, items)?)),
        _ => Ok(Answer::of(1, Vec::new(alloc))),
    }
}

//! Steps with a value, and what each of them answers.
use fz_script::Answer;
use std::alloc::{AllocError, Global};

/// What takes steps.
pub trait Stepped: Drop {
    /// Takes a step, and says what it answers; none where it is no step.
    fn take(&mut self, alloc: Global, step: &str) -> Result<Option<String>, AllocError>;
}

/// Takes rows of steps, and prints a line of answers for each.
pub fn take_all<S: Stepped>(
    alloc: Global,
    stepped: &mut S,
    rows: &[&str],
) -> Result<Answer, AllocError> {
    let mut text = String::new(alloc);
    for row in rows {
        take_row(alloc, stepped, row, &mut text)?;
    }
    Ok(Answer::of(0, text.into_bytes()))
}

fn take_row<S: Stepped>(
    alloc: Global,
    stepped: &mut S,
    row: &str,
    text: &mut String,
) -> Result<(), AllocError> {
    for (number, step) in row.split(", ").enumerate() {
        if number > 0 {
            text.push_str(", ")?;
        }
        match stepped.take(alloc, step)? {
            Some(answer) => text.push_str(&answer)?,
            None => text.push_str("no step")?,
        }
    }
    text.push_str("\n")
}

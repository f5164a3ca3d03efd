//! What a call answers, and whether that is what a case says.
use crate::case::{Case, Ending, Order};
use std::alloc::{AllocError, Global};

/// What a call answers.
#[derive(Drop)]
pub struct Answer {
    pub status: u8,
    pub is_refused: bool,
    pub printed: Vec<u8>,
    /// What is said on standard error.
    pub said: Option<String>,
    /// Whether all is flushed where the call came to its end and else nothing, a fault is answered exactly where one was met, and
    /// whoever watches has seen what he waits for.
    pub is_sound: bool,
}

impl Answer {
    /// What prints this, and has no source and no sink.
    pub fn of(status: u8, printed: Vec<u8>) -> Answer {
        Answer {
            status,
            is_refused: false,
            printed,
            said: None,
            is_sound: true,
        }
    }

    /// Whether this is what a case says.
    pub fn is_wanted(&self, alloc: Global, case: &Case) -> Result<bool, AllocError> {
        let is_said = self.is_sound && self.ends(case.ending) && self.says(case.said.as_deref());
        Ok(is_said && self.grows(case.growing) && self.prints(alloc, case)?)
    }

    fn ends(&self, ending: Ending) -> bool {
        match ending {
            Ending::Refused => self.is_refused,
            Ending::Status(status) => self.status == status,
        }
    }

    fn says(&self, said: Option<&str>) -> bool {
        match said {
            Some(said) => self.said.as_deref() == Some(said),
            None => true,
        }
    }

    /// Whether one of the case's texts is printed.
    fn prints(&self, alloc: Global, case: &Case) -> Result<bool, AllocError> {
        for wanted in &case.others {
            if is_printed(alloc, case.order, wanted, &self.printed)? {
                return Ok(true);
            }
        }
        is_printed(alloc, case.order, &case.printed, &self.printed)
    }

    /// Whether the values of a variable grow.
    fn grows(&self, variable: Option<&str>) -> bool {
        match (variable, std::str::from_utf8(&self.printed)) {
            (None, _) => true,
            (Some(variable), Ok(printed)) => grows(printed, variable),
            (Some(_), Err(_)) => false,
        }
    }
}

/// Whether what is printed is what is wanted.
fn is_printed(
    alloc: Global,
    order: Order,
    wanted: &str,
    printed: &[u8],
) -> Result<bool, AllocError> {
    match order {
        Order::Same => Ok(printed == wanted.as_bytes()),
        Order::AnyOrder => has_blocks(alloc, wanted, printed),
        Order::End => Ok(printed.ends_with(wanted.as_bytes())),
    }
}

const COMPLETE: &[u8] = b"==========\n";

/// Whether two texts have the same blocks, and both end in the closing line, or neither does.
fn has_blocks(alloc: Global, wanted: &str, printed: &[u8]) -> Result<bool, AllocError> {
    let Ok(text) = std::str::from_utf8(printed) else {
        return Ok(false);
    };
    let are_same = blocks(alloc, wanted)? == blocks(alloc, text)?;
    Ok(are_same && wanted.as_bytes().ends_with(COMPLETE) == printed.ends_with(COMPLETE))
}

/// What stands between lines of ten dashes, sorted.
fn blocks(alloc: Global, text: &str) -> Result<Vec<String>, AllocError> {
    let mut blocks = Vec::new(alloc);
    for block in text.split("----------\n") {
        blocks.push(String::from_str(alloc, block)?)?;
    }
    blocks.sort()?;
    Ok(blocks)
}

/// Whether the values in lines as `x = 3;` of a variable grow.
fn grows(printed: &str, variable: &str) -> bool {
    let mut last = i64::MIN;
    for line in printed.lines() {
        if let Some((name, value)) = line.split_once(" = ") {
            if name == variable {
                match value.trim_end_matches(';').parse::<i64>() {
                    Ok(value) if last < value => last = value,
                    _ => return false,
                }
            }
        }
    }
    true
}

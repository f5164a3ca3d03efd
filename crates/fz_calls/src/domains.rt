//! A domain and another one, step by step.
ghost use Rattle.fz_sets.specs.Sets.{IsWithinLimits};

use crate::steps::{Stepped, take_all};
use crate::values::near;
use fz_dom::{Change, Dom};
use fz_script::Answer;
use std::alloc::{AllocError, Global};

#[derive(Drop)]
struct Domains {
    dom: Dom,
    other: Dom,
}

/// Takes rows of steps with a domain of at most three ranges.
pub fn run(alloc: Global, ranges: &str, rows: &[&str]) -> Result<Answer, AllocError> {
    let dom = dom_of(alloc, ranges)?;
    let other = Dom::from_ranges(alloc, &[])?;
    take_all(alloc, &mut Domains { dom, other }, rows)
}

/// A range of two numbers, as `1..3`, or an empty one.
fn range_of(word: &str) -> (i32, i32)
    ensures low { IsWithinLimits result.0 }
    ensures high { IsWithinLimits result.1 }
{
    match word.split_once("..") {
        Some((low, high)) => (
            near(low.parse::<i32>().unwrap_or(1)),
            near(high.parse::<i32>().unwrap_or(0)),
        ),
        None => (1, 0),
    }
}

/// The union of at most three ranges.
fn dom_of(alloc: Global, ranges: &str) -> Result<Dom, AllocError> {
    let (first, rest) = ranges.split_once(' ').unwrap_or((ranges, ""));
    let (second, third) = rest.split_once(' ').unwrap_or((rest, ""));
    if rest.is_empty() {
        Dom::from_ranges(alloc, &[range_of(first)])
    } else if third.is_empty() {
        Dom::from_ranges(alloc, &[range_of(first), range_of(second)])
    } else {
        let ranges = [range_of(first), range_of(second), range_of(third)];
        Dom::from_ranges(alloc, &ranges)
    }
}

impl Stepped for Domains {
    fn take(&mut self, alloc: Global, step: &str) -> Result<Option<String>, AllocError> {
        let (word, rest) = step.split_once(' ').unwrap_or((step, ""));
        match word.as_bytes() {
            b"other" => {
                self.other = dom_of(alloc, rest)?;
                Ok(Some(ranges_of(alloc, &self.other)?))
            }
            b"ranges" => Ok(Some(ranges_of(alloc, &self.dom)?)),
            b"ends" => Ok(Some(ends_of(alloc, &self.dom)?)),
            b"at" => Ok(Some(looked_at(alloc, &self.dom, rest)?)),
            b"same" => Ok(Some(format!(in alloc; "{}", self.dom.same(&self.other))?)),
            b"copy" => {
                self.other = self.dom.copy()?;
                Ok(Some(ranges_of(alloc, &self.other)?))
            }
            b"over" => {
                self.other.copy_from(&self.dom)?;
                Ok(Some(ranges_of(alloc, &self.other)?))
            }
            _ => match changed(self, word, rest)? {
                Some(change) => Ok(Some(String::from_str(alloc, word_of(change))?)),
                None => Ok(None),
            },
        }
    }
}

fn word_of(change: Change) -> &'static str {
    match change {
        Change::Same => "same",
        Change::Changed => "changed",
        Change::Wiped => "wiped",
    }
}

/// What a change answers.
fn changed(domains: &mut Domains, word: &str, rest: &str) -> Result<Option<Change>, AllocError> {
    let Domains { dom, other } = domains;
    let value = rest.parse::<i32>().unwrap_or(0);
    Ok(Some(match word.as_bytes() {
        b"from" => dom.keep_from(value),
        b"to" => dom.keep_to(value),
        b"only" => dom.keep_only(value),
        b"remove" => dom.remove(value)?,
        b"without" => {
            let (low, high) = range_of(rest);
            dom.remove_range(low, high)?
        }
        b"keep" => dom.keep(other)?,
        b"shifted" => dom.keep_shifted(other, value)?,
        _ => return Ok(None),
    }))
}

/// The ranges of a domain and its size, as `1..3 5..7 of 6`.
fn ranges_of(alloc: Global, dom: &Dom) -> Result<String, AllocError> {
    let mut text = String::new(alloc);
    for (low, high) in dom.ranges() {
        text.push_str(&format!(in alloc; "{low}..{high} ")?)?;
    }
    text.push_str(&format!(in alloc; "of {}", dom.size())?)?;
    Ok(text)
}

/// The ends of a domain, and whether it is fixed.
fn ends_of(alloc: Global, dom: &Dom) -> Result<String, AllocError> {
    if dom.is_empty() {
        return String::from_str(alloc, "empty");
    }
    let fixed = if dom.is_fixed() { " fixed" } else { "" };
    format!(in alloc;
        "{}..{}{fixed} by {} ranges",
        dom.min(),
        dom.max(),
        dom.range_count()
    )
}

/// Whether a number is in a domain, the first from it on, and the first above it.
fn looked_at(alloc: Global, dom: &Dom, word: &str) -> Result<String, AllocError> {
    let value = word.parse::<i32>().unwrap_or(0);
    let is_in = dom.contains(value);
    let from = dom.next_from(value).unwrap_or(i32::MAX);
    let above = dom.next_above(value).unwrap_or(i32::MAX);
    format!(in alloc; "{is_in} {from} {above}")
}

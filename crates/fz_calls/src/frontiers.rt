//! A frontier of at most one edge, and a part that was cut off it, step by step.
ghost use Rattle.std.specs.Prelude.{◌≡◌, length};

use crate::books::edges_of;
use crate::steps::{Stepped, take_all};
use crate::values::near;
use fz_dom::Dom;
use fz_model::Assignment;
use fz_region::{Choice, Comparison, Decision, Frontier};
use fz_script::Answer;
use std::alloc::{AllocError, Global};
use std::mem;

#[derive(Drop)]
struct Frontiers {
    frontier: Frontier,
    part: Frontier,
}

/// Takes rows of steps with the root, or below the first of two alternatives, or of five.
pub fn run(alloc: Global, count: &str, rows: &[&str]) -> Result<Answer, AllocError> {
    let frontier = match count.as_bytes() {
        b"2" => below_first_of_two(alloc)?,
        b"5" => below_first_of_five(alloc)?,
        _ => Frontier::root(alloc),
    };
    let part = Frontier::root(alloc);
    take_all(alloc, &mut Frontiers { frontier, part }, rows)
}

/// The first variable is 1, or it isn't.
fn one_or_not(alloc: Global) -> Choice
    ensures { length result ≡ 2 }
{
    Choice::two(
        alloc,
        Decision {
            variable: 0,
            comparison: Comparison::Equal,
            value: 1,
        },
    )
}

/// The frontier below the first alternative, with the other one open too.
fn below_first_of_two(alloc: Global) -> Result<Frontier, AllocError> {
    let mut frontier = Frontier::root(alloc);
    frontier.push(one_or_not(alloc), 0, 1)?;
    Ok(frontier)
}

/// The frontier below the first of five alternatives, one for each number from 1 to 5, with the others open too.
fn below_first_of_five(alloc: Global) -> Result<Frontier, AllocError> {
    let mut frontier = Frontier::root(alloc);
    let numbers = Dom::from_ranges(alloc, &[(1, 5)])?;
    if numbers.size() == 5 {
        let five = Choice::each(alloc, 0, &numbers)?;
        if five.len() == 5 {
            frontier.push(five, 0, 4)?;
        }
    }
    Ok(frontier)
}

impl Stepped for Frontiers {
    fn take(&mut self, alloc: Global, step: &str) -> Result<Option<String>, AllocError> {
        let answer = match step.as_bytes() {
            b"open" => open(alloc, &self.frontier)?,
            b"edges" => edges_of(alloc, &self.frontier)?,
            b"cut" => cut(alloc, self)?,
            b"advance" => format!(in alloc; "{}", self.frontier.advance())?,
            b"same" => format!(in alloc; "{}", self.frontier.same(&self.part))?,
            _ => match done(self, step)? {
                true => String::from_str(alloc, "done")?,
                false => return Ok(None),
            },
        };
        Ok(Some(answer))
    }
}

/// Takes a step that answers nothing, and says whether it is one.
fn done(frontiers: &mut Frontiers, step: &str) -> Result<bool, AllocError> {
    match step.as_bytes() {
        b"close" => frontiers.frontier.close(),
        b"copy" => frontiers.part = frontiers.frontier.copy()?,
        b"swap" => mem::swap(&mut frontiers.frontier, &mut frontiers.part),
        _ => return Ok(false),
    }
    Ok(true)
}

/// Whether (1, 2), (2, 2) and the empty assignment are in a frontier, and whether anything is open.
fn open(alloc: Global, frontier: &Frontier) -> Result<String, AllocError> {
    let one = Assignment::new(alloc, &[near(1), near(2)])?;
    let two = Assignment::new(alloc, &[near(2), near(2)])?;
    let empty = Assignment::new(alloc, &[])?;
    let (one, two) = (frontier.contains(&one), frontier.contains(&two));
    let (empty, rest) = (frontier.contains(&empty), frontier.has_rest());
    format!(in alloc; "{one} {two} {empty} {rest}")
}

/// The edges of the part that is cut off, if any.
fn cut(alloc: Global, frontiers: &mut Frontiers) -> Result<String, AllocError> {
    match frontiers.frontier.cut_last()? {
        Some(part) => {
            let edges = edges_of(alloc, &part)?;
            frontiers.part = part;
            Ok(edges)
        }
        None => String::from_str(alloc, "nothing"),
    }
}

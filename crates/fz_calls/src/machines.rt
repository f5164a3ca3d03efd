//! Two workers that take turns: their events, one by one.
use crate::books::{edges_of, open, recorded, word_of};
use crate::steps::{Stepped, take_all};
use crate::values::{mode, shared_model};
use fz_machine::{Answer as Applied, Event, Machine, Outcome};
use fz_script::Answer;
use fz_space::Space;
use std::alloc::{AllocError, Global};

/// Takes rows of steps with a machine of a text's model.
pub fn run(alloc: Global, text: &str, rows: &[&str]) -> Result<Answer, AllocError> {
    let Some(model) = shared_model(alloc, text)? else {
        return Ok(Answer::of(1, Vec::new(alloc)));
    };
    let mode = mode(model.goal());
    let mut machine: Machine<Space> = Machine::new(alloc, model, mode, 2, 8, 2)?;
    take_all(alloc, &mut machine, rows)
}

impl Stepped for Machine<Space> {
    fn take(&mut self, alloc: Global, step: &str) -> Result<Option<String>, AllocError> {
        let (word, rest) = step.split_once(' ').unwrap_or((step, ""));
        match word.as_bytes() {
            b"book" => Ok(Some(recorded(alloc, self.book())?)),
            b"open" => Ok(Some(open(alloc, self.book())?)),
            b"hand" => Ok(Some(hand(alloc, self)?)),
            b"run" => Ok(Some(run_by(alloc, self, rest)?)),
            _ => match event_of(word, rest) {
                Some(event) => Ok(Some(happen(alloc, self, event)?)),
                None => Ok(None),
            },
        }
    }
}

/// The event of a word and its numbers, as `steal 0 1`.
pub fn event_of(word: &str, rest: &str) -> Option<Event> {
    let (first, second) = rest.split_once(' ').unwrap_or((rest, "0"));
    let first = first.parse::<u32>().ok()?;
    let second = second.parse::<u32>().ok()?;
    match word.as_bytes() {
        b"claim" => Some(Event::Claim(first)),
        b"start" => Some(Event::Start(first)),
        b"step" => Some(Event::Step(first)),
        b"report" => Some(Event::Report(first)),
        b"steal" => Some(Event::Steal(first, second)),
        b"learn" => Some(Event::Learn(first, second)),
        _ => None,
    }
}

/// What comes of an event.
fn happen(alloc: Global, machine: &mut Machine<Space>, event: Event) -> Result<String, AllocError> {
    String::from_str(alloc, word_of_answer(machine.apply(event)?))
}

/// The word of what came of an event.
pub fn word_of_answer(answer: Applied) -> &'static str {
    match answer {
        Applied::Unlawful(_) => "unlawful",
        Applied::Applied(outcome) => outcome_of(outcome),
    }
}

fn outcome_of(outcome: Outcome) -> &'static str {
    match outcome {
        Outcome::Expanded => "expanded",
        Outcome::Found => "found",
        Outcome::Closed => "closed",
        Outcome::Learned => "learned",
        Outcome::Ignored => "ignored",
        Outcome::Moved => "moved",
    }
}

/// The task in the hand of the second worker: its edges, and the depth of the space that comes with it.
fn hand(alloc: Global, machine: &Machine<Space>) -> Result<String, AllocError> {
    if machine.workers() < 2 {
        return String::from_str(alloc, "no worker");
    }
    match machine.hand(1) {
        Some(task) => {
            let edges = edges_of(alloc, task.frontier())?;
            let depth = task.near_depth().unwrap_or(u64::MAX);
            format!(in alloc; "{edges} at {depth}")
        }
        None => String::from_str(alloc, "empty"),
    }
}

/// Turns by a schedule that a number begins.
fn run_by(alloc: Global, machine: &mut Machine<Space>, seed: &str) -> Result<String, AllocError> {
    let seed = seed.parse::<u64>().unwrap_or(0);
    String::from_str(alloc, word_of(machine.run(seed, None)?))
}

//! Workers that take turns on a model of four Booleans, by many seeds.
ghost use Rattle.std.specs.Prelude.{◌≤◌};

use crate::values::{mode, shared_model};
use fz_book::End;
use fz_machine::schedule::next_number;
use fz_machine::{Event, Machine};
use fz_model::{Assignment, Model};
use fz_script::Answer;
use fz_space::Space;
use std::alloc::{AllocError, Global};
use std::sync::Arc;

/// Runs by fifty seeds: by how many of them each assignment is recorded once, and whether workers steal in most.
pub fn run(alloc: Global, text: &str, workers: &str) -> Result<Answer, AllocError> {
    let (mut sound, mut stealing) = (0u32, 0u32);
    for seed in 0..50 {
        if let Some(machine) = machine_of(alloc, text, workers)? {
            sound = sound.saturating_add(u32::from(is_sound(machine, seed)?));
        }
        if let Some(machine) = machine_of(alloc, text, workers)? {
            stealing = stealing.saturating_add(u32::from(steals(machine, seed)?));
        }
    }
    let told = format!(in alloc; "{sound} sound, most steal: {}\n", stealing > 25)?;
    Ok(Answer::of(0, told.into_bytes()))
}

/// That many idle workers on a text's model; none where that is refused.
fn machine_of(
    alloc: Global,
    text: &str,
    workers: &str,
) -> Result<Option<Machine<Space>>, AllocError> {
    let Some(model) = shared_model(alloc, text)? else {
        return Ok(None);
    };
    match workers.parse::<u32>() {
        Ok(workers) if 1 <= workers => Ok(Some(machine_on(alloc, model, workers)?)),
        _ => Ok(None),
    }
}

fn machine_on(alloc: Global, model: Arc<Model>, workers: u32) -> Result<Machine<Space>, AllocError>
    requires { 1 ≤ workers }
{
    let mode = mode(model.goal());
    Ok(Machine::new(alloc, model, mode, workers, 8, 2)?)
}

/// Whether a run records each assignment once.
fn is_sound(machine: Machine<Space>, seed: u64) -> Result<bool, AllocError> {
    let mut machine = machine;
    let is_closed = machine.run(seed, None)? == End::Closed;
    Ok(is_closed && each_is_once(machine.book().recorded()))
}

/// The four values as one number from 0 to 15.
fn number_of(assignment: &Assignment) -> usize {
    let mut number = 0usize;
    for value in assignment.values() {
        number = number
            .wrapping_mul(2)
            .wrapping_add(usize::from(*value == 1));
    }
    number % 16
}

/// Whether each of the 16 assignments is there once.
fn each_is_once(found: &[Assignment]) -> bool {
    let mut seen = [false; 16];
    for assignment in found {
        seen[number_of(assignment) % 16] = true;
    }
    found.len() == 16 && seen.iter().all(|seen| *seen)
}

/// Whether a part is stolen in a run, which is followed turn by turn to its end.
fn steals(machine: Machine<Space>, seed: u64) -> Result<bool, AllocError> {
    let mut machine = machine;
    let mut number = seed;
    let mut has_stolen = false;
    for _turn in 0..1000 {
        number = next_number(number);
        let Some(event) = machine.turn(number, None) else {
            return Ok(has_stolen && each_is_once(machine.book().recorded()));
        };
        machine.apply(event)?;
        has_stolen = has_stolen || matches!(event, Event::Steal(_, _));
    }
    Ok(false)
}

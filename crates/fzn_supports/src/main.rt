//! What spaces leave of small domains, beside all assignments. For each constraint, and each choice of domains of a few numbers
//! for its variables, a space of these domains and that constraint comes to rest, and is compared with the assignments that
//! satisfy. Each is looked at twice: as declared, and as what is left of wider domains that came to rest before, so that what
//! propagators keep between runs is used.
//!
//! With the word `nodes` it counts what a search of the tree of a model on standard input does, with `rows` what one for each
//! row does, and with a number after the word, as in `nodes 1`, up to that many solutions.
#![tactic(auto)]

mod counted;
mod judge;
mod nodes;
mod numbers;
mod rows;
mod table;
mod widest;

use nodes::{Sought, print_nodes};
use rows::groups;
use std::alloc::AllocError;
use std::env;
use std::process::ExitCode;
use table::{Row, Table};

fn main(rt: HostRuntime) -> ExitCode {
    let Ok(words) = words(&rt) else {
        return ExitCode::FAILURE;
    };
    if let Some(word) = words.first() {
        let rows = word.as_str() == "rows";
        let most = words.get(1).map_or(u64::MAX, |word| number_of(word));
        return print_nodes(&rt, Sought { rows, most });
    }
    match all(&rt) {
        Ok(()) => ExitCode::SUCCESS,
        Err(_) => ExitCode::FAILURE,
    }
}

/// The arguments.
fn words(rt: &HostRuntime) -> Result<Vec<String>, AllocError> {
    match env::args(rt) {
        Ok(arguments) => arguments.skip(1).collect::<Vec<String>>(rt.alloc()),
        Err(_) => Ok(Vec::new(rt.alloc())),
    }
}

/// The number that a word is, or 1.
fn number_of(word: &str) -> u64 {
    word.parse::<u64>().unwrap_or(1)
}

fn all(rt: &HostRuntime) -> Result<(), AllocError> {
    for group in groups() {
        let table = Table::new(rt.alloc(), group.numbers)?;
        for constraint in group.constraints {
            let rest = group.rest;
            table.compare(rt, Row { constraint, rest })?;
        }
    }
    Ok(())
}

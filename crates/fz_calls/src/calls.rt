//! The calls of a case, each with a part of the two programs.
use crate::models::{divide, truth};
use crate::{books, collecting, domains, frontiers, machines, paths, portfolios, seeds, spaces};
use fz_script::{Answer, Case};
use std::alloc::{AllocError, Global};
use std::sync::Wait;
use std::thread::Threads;

/// What a call of a case answers; none where it is no call.
pub fn answer_of<R: Threads + Wait + Sync>(
    rt: &R,
    alloc: Global,
    case: &Case,
    call: &str,
) -> Result<Option<Answer>, AllocError> {
    let (kind, rest) = call.split_once(' ').unwrap_or((call, ""));
    let answer = match kind.as_bytes() {
        b"divide" => divide(alloc, &case.text)?,
        b"machine" => machines::run(alloc, &case.text, &case.steps)?,
        b"portfolio" => portfolios::run(alloc, &case.text, &case.steps)?,
        b"path" => paths::run(alloc, &case.text, false, &case.steps)?,
        b"rows" => paths::run(alloc, &case.text, true, &case.steps)?,
        b"space" => spaces::run(alloc, &case.text, &case.steps)?,
        b"book" => books::run(alloc, &case.text, &case.steps)?,
        b"search" => books::search(alloc, &case.text, rest)?,
        b"seeds" => seeds::run(alloc, &case.text, rest)?,
        b"collecting" => collecting::run(rt, alloc, &case.text)?,
        b"team" => collecting::team(rt, alloc, &case.text)?,
        b"frontier" => frontiers::run(alloc, rest, &case.steps)?,
        b"domain" => domains::run(alloc, rest, &case.steps)?,
        b"true" => truth_of(alloc, rest, 0)?,
        b"false" => truth_of(alloc, rest, 1)?,
        _ => return Ok(None),
    };
    Ok(Some(answer))
}

/// Whether a constraint has this truth.
fn truth_of(alloc: Global, constraint: &str, wanted: u8) -> Result<Answer, AllocError> {
    let status = u8::from(truth(alloc, constraint)? != wanted);
    Ok(Answer::of(status, Vec::new(alloc)))
}

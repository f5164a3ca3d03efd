//! The calls of a case, each of one of the two programs.
use crate::generated::knapsack_of;
use crate::runs::{check, run, run_abreast, run_learning, run_meeting, run_showing, words_of};
use crate::words;
use fz_script::{Answer, Case};
use std::alloc::{AllocError, Global};
use std::sync::Wait;
use std::thread::Threads;

/// What a call of a case answers; none where it is no call.
pub fn answer_of<R: Threads + Wait + Sync>(
    rt: &R,
    alloc: Global,
    case: &Case,
    call: &str,
) -> Result<Option<Answer>, AllocError> {
    let (kind, rest) = call.split_once(' ').unwrap_or((call, ""));
    let words = words_of(alloc, rest)?;
    let answer = match kind.as_bytes() {
        b"fzn" => run(rt, alloc, case, &words)?,
        b"fzcheck" => check(alloc, case, &words)?,
        b"meeting" => run_meeting(rt, alloc, case, &words)?,
        b"learning" => run_learning(rt, alloc, case, &words)?,
        b"abreast" => run_abreast(rt, alloc, case, &words)?,
        b"showing" => run_showing(rt, alloc, case, &words)?,
        b"words" => words::read(alloc, &words)?,
        b"knapsack" => knapsack_of(alloc, rest)?,
        _ => return Ok(None),
    };
    Ok(Some(answer))
}

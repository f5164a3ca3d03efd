//! Calls of both programs over a case's texts in memory.
ghost use Rattle.std.specs.Prelude.{◌<◌, ◌-◌, ◌^◌, IfOk};
ghost use Rattle.fz_io.specs.Memory.{sink_faults, source_faults};

use crate::abreast::Abreast;
use crate::learning::Learning;
use crate::meeting::Meeting;
use crate::watching::{ShowingSink, Watching};
use fz_io::gate::{Gate, NoGate};
use fz_io::memory_sink::MemSink;
use fz_io::memory_source::MemSource;
use fz_io::outside::Sink;
use fz_io::texts::NamedText;
use fz_script::case::Faults;
use fz_script::{Answer, Case};
use fzcheck::{CheckStatus, fzcheck};
use fzn::{Status, complaint_of, fzn};
use std::alloc::{AllocError, Global};
use std::sync::Wait;
use std::sync::atomic::AtomicBool;
use std::thread::Threads;

/// The words of a call.
pub fn words_of(alloc: Global, words: &str) -> Result<Vec<String>, AllocError> {
    let mut strings = Vec::new(alloc);
    for word in words.split_whitespace() {
        strings.push(String::from_str(alloc, word)?)?;
    }
    Ok(strings)
}

/// The numbers of the calls that fail.
fn numbers(alloc: Global, fault: Option<u64>) -> Result<Vec<u64>, AllocError> {
    let mut numbers = Vec::new(alloc);
    if let Some(number) = fault {
        numbers.push(number)?;
    }
    Ok(numbers)
}

/// A source of the text under the names `m.fzn` and `-`; where there is an output that is `-`.
fn source_of(alloc: Global, case: &Case) -> Result<MemSource, AllocError>
    ensures { IfOk result (λ s. source_faults s < 2 ^ 64 - 1) }
{
    let second = if case.has_output {
        &case.output
    } else {
        &case.text
    };
    let mut texts = Vec::new(alloc);
    texts.push(text_of(alloc, "m.fzn", &case.text)?)?;
    texts.push(text_of(alloc, "-", second)?)?;
    let source = MemSource::new(texts, numbers(alloc, case.faults.source)?);
    Ok(source.with_step(case.faults.step))
}

fn text_of(alloc: Global, name: &str, text: &str) -> Result<NamedText, AllocError> {
    Ok(NamedText {
        name: String::from_str(alloc, name)?,
        bytes: Vec::from_slice(alloc, text.as_bytes())?,
    })
}

fn sink_of(alloc: Global, faults: Faults) -> Result<MemSink, AllocError>
    ensures { IfOk result (λ s. sink_faults s < 2 ^ 64 - 1) }
{
    let sink = MemSink::new(alloc, numbers(alloc, faults.sink)?);
    Ok(sink.with_step(faults.step))
}

/// Whether a sink is flushed where the call came to its end, and else not, and faults are answered exactly where they were met.
fn is_sound(sink: &MemSink, has_ended: bool, source_faults: u64, answered: (bool, bool)) -> bool {
    let flushed = if has_ended { sink.bytes().len() } else { 0 };
    sink.flushed_count() == flushed && (source_faults > 0, sink.fault_count() > 0) == answered
}

/// A run of `fzn`, and how often its source failed.
fn run_into<R: Threads + Wait + Sync, S: Sink + Send, G: Gate + Sync>(
    rt: &R,
    alloc: Global,
    case: &Case,
    words: &[String],
    sink: &mut S,
    gate: &G,
) -> Result<(Status, u64), AllocError>
    requires { S.faults sink.old < 2 ^ 64 - 1 }
{
    let mut source = source_of(alloc, case)?;
    let status = fzn(rt, alloc, words, &mut source, sink, gate);
    Ok((status, source.fault_count()))
}

/// What a run of `fzn` answers, by what it left.
fn answer_of(
    alloc: Global,
    words: &[String],
    run: (Status, u64),
    sink: &MemSink,
) -> Result<Answer, AllocError> {
    let (status, source_faults) = run;
    let is_refused = matches!(status, Status::Refused(_));
    let has_ended = is_refused || status == Status::Done;
    let answered = (status == Status::SourceFault, status == Status::SinkFault);
    Ok(Answer {
        status: status.code(),
        is_refused,
        printed: Vec::from_slice(alloc, sink.bytes())?,
        said: complaint_of(alloc, words, &status)?,
        is_sound: is_sound(sink, has_ended, source_faults, answered),
    })
}

/// A run of `fzn` that a gate watches.
fn run_watched<R: Threads + Wait + Sync, G: Gate + Sync>(
    rt: &R,
    alloc: Global,
    case: &Case,
    words: &[String],
    gate: &G,
) -> Result<Answer, AllocError> {
    let mut sink = sink_of(alloc, case.faults)?;
    let run = run_into(rt, alloc, case, words, &mut sink, gate)?;
    answer_of(alloc, words, run, &sink)
}

/// A run of `fzn`.
pub fn run<R: Threads + Wait + Sync>(
    rt: &R,
    alloc: Global,
    case: &Case,
    words: &[String],
) -> Result<Answer, AllocError> {
    run_watched(rt, alloc, case, words, &NoGate)
}

/// A run of `fzn` by two workers, of which neither gets past a step without the other: each of the 17 nodes has a step.
pub fn run_meeting<R: Threads + Wait + Sync>(
    rt: &R,
    alloc: Global,
    case: &Case,
    words: &[String],
) -> Result<Answer, AllocError> {
    let meeting = Meeting::new();
    let answer = run_watched(rt, alloc, case, words, &meeting)?;
    let have_met = !meeting.is_missed() && 17 <= meeting.steps();
    Ok(Answer {
        is_sound: answer.is_sound && have_met,
        ..answer
    })
}

/// A run of `fzn` by two workers, of which the second learns what the first found.
pub fn run_learning<R: Threads + Wait + Sync>(
    rt: &R,
    alloc: Global,
    case: &Case,
    words: &[String],
) -> Result<Answer, AllocError> {
    let learning = Learning::new();
    let answer = run_watched(rt, alloc, case, words, &learning)?;
    Ok(Answer {
        is_sound: answer.is_sound && learning.has_learned(),
        ..answer
    })
}

/// A run of `fzn` by two workers that are in their first steps at once.
pub fn run_abreast<R: Threads + Wait + Sync>(
    rt: &R,
    alloc: Global,
    case: &Case,
    words: &[String],
) -> Result<Answer, AllocError> {
    let abreast = Abreast::new();
    let answer = run_watched(rt, alloc, case, words, &abreast)?;
    Ok(Answer {
        is_sound: answer.is_sound && abreast.have_met(),
        ..answer
    })
}

/// A run of `fzn` by two workers that wait, after the first report of each, until something is printed.
pub fn run_showing<R: Threads + Wait + Sync>(
    rt: &R,
    alloc: Global,
    case: &Case,
    words: &[String],
) -> Result<Answer, AllocError> {
    let has_taken = AtomicBool::new(false);
    let gate = Watching::new(&has_taken);
    let mut sink = ShowingSink::new(sink_of(alloc, case.faults)?, &has_taken);
    let run = run_into(rt, alloc, case, words, &mut sink, &gate)?;
    let answer = answer_of(alloc, words, run, sink.inner())?;
    let is_shown = gate.has_waited() && !gate.is_missed();
    Ok(Answer {
        is_sound: answer.is_sound && is_shown,
        ..answer
    })
}

/// A call of `fzcheck`.
pub fn check(alloc: Global, case: &Case, words: &[String]) -> Result<Answer, AllocError> {
    let mut source = source_of(alloc, case)?;
    let mut sink = sink_of(alloc, case.faults)?;
    let status = fzcheck(alloc, words, &mut source, &mut sink);
    let is_refused = matches!(status, CheckStatus::Refused(_));
    let has_ended = is_refused || matches!(status, CheckStatus::Yes | CheckStatus::No);
    let answered = (
        status == CheckStatus::SourceFault,
        status == CheckStatus::SinkFault,
    );
    Ok(Answer {
        status: status.code(),
        is_refused,
        printed: Vec::from_slice(alloc, sink.bytes())?,
        said: None,
        is_sound: is_sound(&sink, has_ended, source.fault_count(), answered),
    })
}

//! Joining the texts.
ghost use Rattle.std.specs.Prelude.{◌≡◌, ℕ, ◌-◌, ◌^◌, ◌<◌, Bool, List, [], Option, OnOk, OnErr, Result};
ghost use Rattle.fz_join.specs.Joins.{AreNamed};
ghost use Rattle.fz_join.specs.declared.lack.Lack.{Lack};
ghost use Rattle.fzjoin.specs.Answers.{Files, TakesMore, input};
ghost use Rattle.fzjoin.specs.Steps.{Ends, Finishes, HasTextCause, IsFed, IsPassed, IsReady, IsTold, Puts, ended_as};

use crate::status::JoinStatus;
use fz_io::outside::{Failed, Sink, Source};
use fz_io::whole::put_all;
use fz_join::{Join, Lack};
use fz_print::trailer::refusal;
use std::alloc::Global;

/// How many bytes are asked for at once.
const PIECE: usize = 64 * 1024;

/// Joins the texts on standard input.
pub(crate) fn join_texts<R: Source, S: Sink>(
    alloc: Global,
    join: Join,
    source: &mut R,
    sink: &mut S,
) -> JoinStatus
    requires named { AreNamed join.model }
    requires unread { join.read ≡ [] }
    requires unprinted { join.printed ≡ [] }
    requires source { R.faults source.old < 2 ^ 64 - 1 }
    requires sink { S.faults sink.old < 2 ^ 64 - 1 }
    ensures { (all : Bool) (f : Files) → IsReady all f join → f.texts ≡ R.texts source.old input
        → Ends result all f (S.taken sink.old) (S.taken sink.new) (S.flushed sink.new)
        (R.faults source.old) (R.faults source.new) (S.faults sink.old) (S.faults sink.new) }
{
    match source.select("-") {
        Ok(()) => join_selected(alloc, join, source, sink),
        Err(Failed) => JoinStatus::SourceFault,
    }
}

/// Joins the selected texts.
fn join_selected<R: Source, S: Sink>(
    alloc: Global,
    mut join: Join,
    source: &mut R,
    sink: &mut S,
) -> JoinStatus
    requires named { AreNamed join.model }
    requires unread { join.read ≡ [] }
    requires unprinted { join.printed ≡ [] }
    requires source { R.faults source.old < 2 ^ 64 - 1 }
    requires sink { S.faults sink.old < 2 ^ 64 - 1 }
    ensures { (all : Bool) (f : Files) → IsReady all f join → f.texts ≡ R.left source.old
        → Ends result all f (S.taken sink.old) (S.taken sink.new) (S.flushed sink.new)
        (R.faults source.old) (R.faults source.new) (S.faults sink.old) (S.faults sink.new) }
{
    match pass_on(alloc, &mut join, source, sink) {
        Ok(()) => finish(alloc, join, sink),
        Err(status) => status,
    }
}

/// Reads the selected texts, and prints what is to be printed by then.
fn pass_on<R: Source, S: Sink>(
    alloc: Global,
    join: &mut Join,
    source: &mut R,
    sink: &mut S,
) -> Result<(), JoinStatus>
    requires unread { join.old.read ≡ [] }
    requires unprinted { join.old.printed ≡ [] }
    requires source { R.faults source.old < 2 ^ 64 - 1 }
    requires sink { S.faults sink.old < 2 ^ 64 - 1 }
    ensures passed { OnOk result (IsPassed join.old join.new
        (R.left source.old) (S.taken sink.old) (S.taken sink.new)) }
    ensures broken { OnErr result (TakesMore (S.taken sink.old) (S.taken sink.new)) }
    ensures cause { HasTextCause result (R.faults source.old) (R.faults source.new)
        (S.faults sink.old) (S.faults sink.new) }
{
    let mut text = Vec::new(alloc);
    let mut buffer = [0u8; PIECE];
    'pieces: for _ in 0..u64::MAX {
        match source.read(&mut buffer) {
            Ok(0) => return Ok(()),
            Ok(count) => feed(join, &buffer[..count], &mut text, sink)?,
            Err(Failed) => return Err(JoinStatus::SourceFault),
        }
    }
    Err(JoinStatus::NoMemory)
}

/// Reads a piece, and prints what is to be printed by then. The text is empty before and after.
fn feed<S: Sink>(
    join: &mut Join,
    piece: &[u8],
    text: &mut Vec<u8>,
    sink: &mut S,
) -> Result<(), JoinStatus>
    requires empty { text.old.items ≡ [] }
    requires faults { S.faults sink.old < 2 ^ 64 - 1 }
    ensures empty { OnOk result (text.new.items ≡ []) }
    ensures fed { OnOk result (IsFed piece.now join.old join.new (S.taken sink.old) (S.taken sink.new)) }
    ensures broken { OnErr result (TakesMore (S.taken sink.old) (S.taken sink.new)) }
    ensures cause { (a : ℕ) → HasTextCause result a a (S.faults sink.old) (S.faults sink.new) }
{
    if join.feed(piece, text).is_err() {
        return Err(JoinStatus::NoMemory);
    }
    if put_all(sink, text).is_err() {
        return Err(JoinStatus::SinkFault);
    }
    text.clear();
    Ok(())
}

/// Ends the join, and prints what is left.
fn finish<S: Sink>(alloc: Global, join: Join, sink: &mut S) -> JoinStatus
    requires named { AreNamed join.model }
    requires faults { S.faults sink.old < 2 ^ 64 - 1 }
    ensures { Finishes join result (S.taken sink.old) (S.taken sink.new) (S.flushed sink.new)
        (S.faults sink.old) (S.faults sink.new) }
{
    let mut text = Vec::new(alloc);
    match join.finish(&mut text) {
        Ok(answer) => put(&text, status_of(answer), sink),
        Err(_) => JoinStatus::NoMemory,
    }
}

/// The answer where a join ends so.
fn status_of(answer: Result<(), Lack>) -> JoinStatus
    ensures { result ≡ ended_as answer }
{
    match answer {
        Ok(()) => JoinStatus::Done,
        Err(Lack::CutOff) => JoinStatus::CutOff,
        Err(Lack::Part(place)) => JoinStatus::Part(place),
        Err(Lack::Bound) => JoinStatus::Bound,
        Err(Lack::NoSolution) => JoinStatus::NoSolution,
    }
}

/// Prints what goes with an answer where no join begins.
pub(crate) fn tell<S: Sink>(alloc: Global, status: JoinStatus, sink: &mut S) -> JoinStatus
    requires { S.faults sink.old < 2 ^ 64 - 1 }
    ensures { IsTold status result (S.taken sink.old) (S.taken sink.new) (S.flushed sink.new)
        (S.faults sink.old) (S.faults sink.new) }
{
    match status {
        JoinStatus::Refused(refused) => match refusal(alloc, &refused) {
            Ok(text) => put(&text, JoinStatus::Refused(refused), sink),
            Err(_) => JoinStatus::NoMemory,
        },
        _ => status,
    }
}

/// Prints a text whole, flushes, and answers so.
fn put<S: Sink>(text: &[u8], status: JoinStatus, sink: &mut S) -> JoinStatus
    requires { S.faults sink.old < 2 ^ 64 - 1 }
    ensures { Puts status result text.now (S.taken sink.old) (S.taken sink.new) (S.flushed sink.new)
        (S.faults sink.old) (S.faults sink.new) }
{
    match put_all(sink, text) {
        Ok(()) => match sink.flush() {
            Ok(()) => status,
            Err(_) => JoinStatus::SinkFault,
        },
        Err(_) => JoinStatus::SinkFault,
    }
}

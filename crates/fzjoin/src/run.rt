//! The top call.
ghost use Rattle.std.specs.Prelude.{◌≡◌, ◌↔◌, ℕ, ◌-◌, ◌^◌, ◌<◌, None, IfSome, map, string_bytes};
ghost use Rattle.fzjoin.specs.Answers.{Answers, HasItsCause, IsFlushed, asked_of, files_of, flagged, named};
ghost use Rattle.fzjoin.specs.Steps.{Ends};

use crate::prepare::prepare;
use crate::status::JoinStatus;
use crate::texts::{join_texts, tell};
use fz_io::outside::{Sink, Source};
use std::alloc::Global;

/// Joins what runs of parts of a model printed into what a run of the whole model prints.
///
/// `words` are the names of the model's FlatZinc text and of the text of its parts, as `fzn --split` prints them; before them `-a`
/// where the runs asked for all solutions. Standard input, `-`, has the texts that the runs printed, one after another in any order.
/// Blocks are printed as they come. Of a model's text that is refused the place, the code and `=====ERROR=====` are printed, as
/// `fzn` prints them. The text of the parts may have 1,073,741,824 bytes. Where each variable is shown, each that is printed
/// is checked again.
pub fn fzjoin<R: Source, S: Sink>(
    alloc: Global,
    words: &[String],
    source: &mut R,
    sink: &mut S,
) -> JoinStatus
    requires source { R.faults source.old < 2 ^ 64 - 1 }
    requires sink { S.faults sink.old < 2 ^ 64 - 1 }

    // Usage comes exactly where the words are not the names of two files; then no call is made.
    ensures usage { result ≡ JoinStatus.Usage ↔ asked_of (map string_bytes words.now) ≡ None }
    ensures untouched { asked_of (map string_bytes words.now) ≡ None
        → (source.new ≡ source.old) × (sink.new ≡ sink.old) }

    // What the answer says of the files, and of what is printed.
    ensures answers { IfSome (asked_of (map string_bytes words.now)) (λ call.
        Answers result call.all (files_of (R.texts source.old) call) (S.taken sink.old) (S.taken sink.new)) }
    ensures flushed { IsFlushed result (S.taken sink.new) (S.flushed sink.new) }

    // Each answer has its cause: a fault comes only where its own count rose, all others only where none did.
    ensures cause { HasItsCause result (R.faults source.old) (R.faults source.new)
        (S.faults sink.old) (S.faults sink.new) }
{
    match words {
        [model, parts] => join_named(alloc, false, model.as_str(), parts.as_str(), source, sink),
        [flag, model, parts] => {
            join_flagged(
                alloc,
                flag.as_str(),
                model.as_str(),
                parts.as_str(),
                source,
                sink,
            )
        }
        _ => JoinStatus::Usage,
    }
}

/// Joins the parts of the model of these names for all solutions, if the flag asks for them.
fn join_flagged<R: Source, S: Sink>(
    alloc: Global,
    flag: &str,
    model: &str,
    parts: &str,
    source: &mut R,
    sink: &mut S,
) -> JoinStatus
    requires source { R.faults source.old < 2 ^ 64 - 1 }
    requires sink { S.faults sink.old < 2 ^ 64 - 1 }
    ensures usage { result ≡ JoinStatus.Usage ↔ flagged flag.now model.now parts.now ≡ None }
    ensures untouched { flagged flag.now model.now parts.now ≡ None
        → (source.new ≡ source.old) × (sink.new ≡ sink.old) }
    ensures answers { IfSome (flagged flag.now model.now parts.now) (λ call.
        Answers result call.all (files_of (R.texts source.old) call) (S.taken sink.old) (S.taken sink.new)) }
    ensures flushed { IsFlushed result (S.taken sink.new) (S.flushed sink.new) }
    ensures cause { HasItsCause result (R.faults source.old) (R.faults source.new)
        (S.faults sink.old) (S.faults sink.new) }
{
    if flag == "-a" {
        join_named(alloc, true, model, parts, source, sink)
    } else {
        JoinStatus::Usage
    }
}

/// Joins the parts of the model of these names, which may be standard input.
fn join_named<R: Source, S: Sink>(
    alloc: Global,
    all: bool,
    model: &str,
    parts: &str,
    source: &mut R,
    sink: &mut S,
) -> JoinStatus
    requires source { R.faults source.old < 2 ^ 64 - 1 }
    requires sink { S.faults sink.old < 2 ^ 64 - 1 }
    ensures usage { result ≡ JoinStatus.Usage ↔ named all model.now parts.now ≡ None }
    ensures untouched { named all model.now parts.now ≡ None
        → (source.new ≡ source.old) × (sink.new ≡ sink.old) }
    ensures answers { IfSome (named all model.now parts.now) (λ call.
        Answers result call.all (files_of (R.texts source.old) call) (S.taken sink.old) (S.taken sink.new)) }
    ensures flushed { IsFlushed result (S.taken sink.new) (S.flushed sink.new) }
    ensures cause { HasItsCause result (R.faults source.old) (R.faults source.new)
        (S.faults sink.old) (S.faults sink.new) }
{
    if model == "-" || parts == "-" {
        return JoinStatus::Usage;
    }
    join_files(alloc, all, model, parts, source, sink)
}

/// Joins the parts of the model of these names.
fn join_files<R: Source, S: Sink>(
    alloc: Global,
    all: bool,
    model: &str,
    parts: &str,
    source: &mut R,
    sink: &mut S,
) -> JoinStatus
    requires source { R.faults source.old < 2 ^ 64 - 1 }
    requires sink { S.faults sink.old < 2 ^ 64 - 1 }
    ensures { Ends result all
        (files_of (R.texts source.old) (record { all = all; model = model.now; parts = parts.now }))
        (S.taken sink.old) (S.taken sink.new) (S.flushed sink.new)
        (R.faults source.old) (R.faults source.new) (S.faults sink.old) (S.faults sink.new) }
{
    match prepare(alloc, all, model, parts, source) {
        Ok(join) => join_texts(alloc, join, source, sink),
        Err(status) => tell(alloc, status, sink),
    }
}

//! The top call.
ghost use Rattle.std.specs.Prelude.{◌≡◌, ◌↔◌, ℕ, ◌-◌, ◌^◌, ◌<◌, ◌≤◌, List, Option, None, IfSome, IfOk, length, map, string_bytes};
ghost use Rattle.fz_io.specs.Outside.{AllFlushed};
ghost use Rattle.fzcheck.specs.Answers.{Answers, HasItsCause, IsFlushed, IsReadOf, Judges, Prints, asked_of, named};
ghost use Rattle.fzcheck.specs.Steps.{HasSourceCause, HasStopCause, IsTold, Puts};

use crate::status::CheckStatus;
use fz_cert::check;
use fz_io::outside::{Sink, Source};
use fz_io::whole::{Whole, put_all, read_all};
use fz_model::model::Model;
use fz_print::trailer::refusal;
use fz_reader::model_of;
use fz_spec::limits::TEXT_LIMIT;
use std::alloc::Global;

/// How many bytes an output may have.
pub const OUTPUT_LIMIT: usize = 1_073_741_824;

/// Why a text could not be read.
#[derive(Clone, Copy, Debug, PartialEq, Eq)]
pub enum Stop {
    Memory,
    Fault,
}

/// Whether an output proves that its last block is best for a model, or that no assignment satisfies it.
///
/// `words` are the names of the model's FlatZinc text and of the output, in this order; `-` is standard input, and one of the two at
/// most. Printed is `yes` where the output proves, `no` where it does not, or has more than 1,073,741,824 bytes; of a text that is
/// refused the place, the code and `=====ERROR=====`, as `fzn` prints them.
pub fn fzcheck<R: Source, S: Sink>(
    alloc: Global,
    words: &[String],
    source: &mut R,
    sink: &mut S,
) -> CheckStatus
    requires source { R.faults source.old < 2 ^ 64 - 1 }
    requires sink { S.faults sink.old < 2 ^ 64 - 1 }

    // Usage comes exactly where the words are not the names of two texts; then no call is made.
    ensures usage { result ≡ CheckStatus.Usage ↔ asked_of (map string_bytes words.now) ≡ None }
    ensures untouched { asked_of (map string_bytes words.now) ≡ None
        → (source.new ≡ source.old) × (sink.new ≡ sink.old) }

    // What the answer says of the two texts, and what is printed.
    ensures answers { IfSome (asked_of (map string_bytes words.now)) (λ names.
        Answers result (R.texts source.old names.0) (R.texts source.old names.1)) }
    ensures printed { IfSome (asked_of (map string_bytes words.now)) (λ names.
        Prints result (R.texts source.old names.0) (R.texts source.old names.1) (S.taken sink.old) (S.taken sink.new)) }
    ensures flushed { IsFlushed result (S.taken sink.new) (S.flushed sink.new) }

    // Each answer has its cause: a fault comes only where its own count rose, all others only where none did.
    ensures cause { HasItsCause result (R.faults source.old) (R.faults source.new)
        (S.faults sink.old) (S.faults sink.new) }
{
    match words {
        [model, output] => check_named(alloc, model.as_str(), output.as_str(), source, sink),
        _ => CheckStatus::Usage,
    }
}

/// The check of two texts by their names.
fn check_named<R: Source, S: Sink>(
    alloc: Global,
    model: &str,
    output: &str,
    source: &mut R,
    sink: &mut S,
) -> CheckStatus
    requires source { R.faults source.old < 2 ^ 64 - 1 }
    requires sink { S.faults sink.old < 2 ^ 64 - 1 }
    ensures usage { result ≡ CheckStatus.Usage ↔ named model.now output.now ≡ None }
    ensures untouched { named model.now output.now ≡ None
        → (source.new ≡ source.old) × (sink.new ≡ sink.old) }
    ensures answers { IfSome (named model.now output.now) (λ names.
        Answers result (R.texts source.old names.0) (R.texts source.old names.1)) }
    ensures printed { IfSome (named model.now output.now) (λ names.
        Prints result (R.texts source.old names.0) (R.texts source.old names.1) (S.taken sink.old) (S.taken sink.new)) }
    ensures flushed { IsFlushed result (S.taken sink.new) (S.flushed sink.new) }
    ensures cause { HasItsCause result (R.faults source.old) (R.faults source.new)
        (S.faults sink.old) (S.faults sink.new) }
{
    if model == "-" && output == "-" {
        return CheckStatus::Usage;
    }
    check_two(alloc, model, output, source, sink)
}

/// The check of two texts that can be read one after the other.
fn check_two<R: Source, S: Sink>(
    alloc: Global,
    model: &str,
    output: &str,
    source: &mut R,
    sink: &mut S,
) -> CheckStatus
    requires source { R.faults source.old < 2 ^ 64 - 1 }
    requires sink { S.faults sink.old < 2 ^ 64 - 1 }
    ensures answers { Answers result (R.texts source.old model.now) (R.texts source.old output.now) }
    ensures printed { Prints result (R.texts source.old model.now) (R.texts source.old output.now)
        (S.taken sink.old) (S.taken sink.new) }
    ensures flushed { IsFlushed result (S.taken sink.new) (S.flushed sink.new) }
    ensures cause { HasItsCause result (R.faults source.old) (R.faults source.new)
        (S.faults sink.old) (S.faults sink.new) }
{
    let status = answer(alloc, model, output, source);
    tell(alloc, status, sink)
}

/// What is answered of two texts.
fn answer<R: Source>(alloc: Global, model: &str, output: &str, source: &mut R) -> CheckStatus
    requires { R.faults source.old < 2 ^ 64 - 1 }
    ensures answers { Answers result (R.texts source.old model.now) (R.texts source.old output.now) }
    ensures cause { HasSourceCause result (R.faults source.old) (R.faults source.new) }
{
    match read_text(alloc, model, TEXT_LIMIT, source) {
        Ok(text) => answer_text(alloc, &text, output, source),
        Err(Stop::Fault) => CheckStatus::SourceFault,
        Err(Stop::Memory) => CheckStatus::NoMemory,
    }
}

/// What is answered of a model's text, or of its first bytes, and of an output.
fn answer_text<R: Source>(alloc: Global, text: &[u8], output: &str, source: &mut R) -> CheckStatus
    requires { R.faults source.old < 2 ^ 64 - 1 }
    ensures answers { (file : Option (List ℕ)) → IsReadOf TEXT_LIMIT file text.now
        → Answers result file (R.texts source.old output.now) }
    ensures cause { HasSourceCause result (R.faults source.old) (R.faults source.new) }
{
    match model_of(alloc, text) {
        Ok(Ok(model)) => judge(alloc, &model, output, source),
        Ok(Err(refused)) => CheckStatus::Refused(refused),
        Err(_) => CheckStatus::NoMemory,
    }
}

/// What is answered of a model and an output.
fn judge<R: Source>(alloc: Global, model: &Model, output: &str, source: &mut R) -> CheckStatus
    requires { R.faults source.old < 2 ^ 64 - 1 }
    ensures judges { Judges result model.now (R.texts source.old output.now) }
    ensures cause { HasSourceCause result (R.faults source.old) (R.faults source.new) }
{
    match read_text(alloc, output, OUTPUT_LIMIT, source) {
        Ok(text) => judge_text(alloc, model, &text),
        Err(Stop::Fault) => CheckStatus::SourceFault,
        Err(Stop::Memory) => CheckStatus::NoMemory,
    }
}

/// What is answered of a model and the text of an output, or its first bytes.
fn judge_text(alloc: Global, model: &Model, text: &[u8]) -> CheckStatus
    ensures judges { (file : Option (List ℕ)) → IsReadOf OUTPUT_LIMIT file text.now
        → Judges result model.now file }
    ensures cause { (a : ℕ) → HasSourceCause result a a }
{
    if text.len() > OUTPUT_LIMIT {
        return CheckStatus::No;
    }
    match check(alloc, model, text) {
        Ok(true) => CheckStatus::Yes,
        Ok(false) => CheckStatus::No,
        Err(_) => CheckStatus::NoMemory,
    }
}

/// The text of this name, or the first bytes of one that is longer than the limit, one more than it.
fn read_text<R: Source>(
    alloc: Global,
    name: &str,
    limit: usize,
    source: &mut R,
) -> Result<Vec<u8>, Stop>
    requires { R.faults source.old < 2 ^ 64 - 1 }
    ensures texts { R.texts source.new ≡ R.texts source.old }
    ensures read { IfOk result (λ text. IsReadOf limit (R.texts source.old name.now) text.items) }
    ensures cause { HasStopCause (R.faults source.old) (R.faults source.new) result }
{
    match source.select(name) {
        Ok(()) => read_selected(alloc, limit, source),
        Err(_) => Err(Stop::Fault),
    }
}

fn read_selected<R: Source>(alloc: Global, limit: usize, source: &mut R) -> Result<Vec<u8>, Stop>
    requires { R.faults source.old < 2 ^ 64 - 1 }
    ensures texts { R.texts source.new ≡ R.texts source.old }
    ensures read { IfOk result (λ text. IsReadOf limit (R.left source.old) text.items) }
    ensures cause { HasStopCause (R.faults source.old) (R.faults source.new) result }
{
    match read_all(alloc, source, limit) {
        Ok(Whole::Bytes(text)) => Ok(text),
        Ok(Whole::TooLong(text)) => Ok(text),
        Ok(Whole::Failed) => Err(Stop::Fault),
        Err(_) => Err(Stop::Memory),
    }
}

/// Prints what goes with an answer.
fn tell<S: Sink>(alloc: Global, status: CheckStatus, sink: &mut S) -> CheckStatus
    requires { S.faults sink.old < 2 ^ 64 - 1 }
    ensures { IsTold status result (S.taken sink.old) (S.taken sink.new) (S.flushed sink.new)
        (S.faults sink.old) (S.faults sink.new) }
{
    match status {
        CheckStatus::Yes => put(b"yes\n", CheckStatus::Yes, sink),
        CheckStatus::No => put(b"no\n", CheckStatus::No, sink),
        CheckStatus::Refused(refused) => match refusal(alloc, &refused) {
            Ok(text) => put(&text, CheckStatus::Refused(refused), sink),
            Err(_) => CheckStatus::NoMemory,
        },
        CheckStatus::Usage
        | CheckStatus::SourceFault
        | CheckStatus::SinkFault
        | CheckStatus::NoMemory => status,
    }
}

/// Prints a text whole, flushes, and answers so.
fn put<S: Sink>(text: &[u8], status: CheckStatus, sink: &mut S) -> CheckStatus
    requires { S.faults sink.old < 2 ^ 64 - 1 }
    ensures { Puts status result text.now (S.taken sink.old) (S.taken sink.new) (S.flushed sink.new)
        (S.faults sink.old) (S.faults sink.new) }
{
    match put_all(sink, text) {
        Ok(()) => match sink.flush() {
            Ok(()) => status,
            Err(_) => CheckStatus::SinkFault,
        },
        Err(_) => CheckStatus::SinkFault,
    }
}

//! The top call.
ghost use Rattle.std.specs.Arc.{arc_value};
ghost use Rattle.std.specs.Prelude.{◌≡◌, ◌≢◌, ◌⊎◌, ℕ, ◌-◌, ◌^◌, ◌<◌, ◌≤◌, List, Option, None, true, false, IfSome, IfOk, OnOk, OnErr, length, map, MatchResult, option_copied, option_map, string_bytes};
ghost use Rattle.fz_io.specs.Outside.{one_more, AllFlushed};
ghost use Rattle.fz_language.specs.Reads.{Accepted, Reads};
ghost use Rattle.fz_reader.specs.Refusals.{IsRefusal};
ghost use Rattle.fz_print.specs.Refusal.{text_of};
ghost use Rattle.fz_cmd.specs.Meaning.{options_of};
ghost use Rattle.fz_gen.specs.Knapsack as texts;
ghost use Rattle.fzn.specs.Promises.{AnswersAccepted, AnswersPart, AnswersRefused, HasItsCause, HasReadAll, HasSelected, IsDoneOrShort, IsFlushed, IsUnrefused, Runs, SelectsOnce, text_for};
ghost use Rattle.fzn.specs.Steps.{Answers, AskForWhole, HasSearchCause, HasSearched, HasSinkCause, IsEnded, IsReadOf, LeavesNothing, PrintsModel, PrintsOf, SelectsAt, ShowsFront, ShowsWhole, certified_after};
ghost use Rattle.fz_printer.specs.Printed.{as_found_of, book_of, HasPrinted};
ghost use Rattle.fzn.specs.Begun.{IsCertifiable};
ghost use Rattle.fz_maker.specs.Taken.{TakesOne, TakesFrontOfOne};
ghost use Rattle.fz_runs.specs.Runs.{IsCertificate};
ghost use Rattle.fz_printer.specs.Texts.{HasStopCause};

use crate::part::run_part;
use crate::split::run_split;
use crate::status::Status;
use crate::steps::{flush, searched};
use fz_cmd::Options;
use fz_cmd::words::options;
use fz_gen::knapsack;
use fz_gen::text::{ITEMS_LEAST, ITEMS_MOST};
use fz_io::gate::Gate;
use fz_io::outside::{Sink, Source};
use fz_io::whole::{Whole, read_all};
use fz_maker::print_certificate;
use fz_model::assignment::Assignment;
use fz_model::model::Model;
use fz_print::refusal::Refusal;
use fz_printer::{Printer, Stop, print_end, print_refusal, print_run};
use fz_reader::model_of;
use fz_search::{listing_of, search, search_in_threads, tally_of};
use fz_space::Space;
use fz_spec::goal::Goal;
use fz_spec::limits::TEXT_LIMIT;
use std::alloc::{AllocError, Global};
use std::sync::{Arc, Wait};
use std::thread::Threads;

/// Reads a FlatZinc text, searches for its solutions, and prints them.
///
/// `words` are the arguments of the program: `-a` for all solutions, `-n N` for N of them (0 for all), one where neither is given;
/// `--distinct` for one of those of which the same is printed, where the model has no goal;
/// `--commit-distance N` for how often a copy of a node is kept, `--adaptive-distance N` for how long a way has a copy in its
/// middle; `-p N` for a search by that many workers (1 where it isn't given); `--assets N` for a search in that many ways side by
/// side; `--interleave SEED` for workers that take turns on one thread by a schedule which the seed begins; `-s` for statistics;
/// `--certificate` for a certificate; `--generate N` for a model that is generated, a knapsack of N
/// items, in place of one that is read; `--split N` for N parts of the model, or fewer; `--part P` for the run of such a part, and
/// with it `--better V` for what is better than V; and FILE. The text is that of FILE; no FILE is `-`, standard input. A text may have
/// 67,108,864 bytes. Printed is a block for each satisfying assignment, in any order, and
/// `==========`; of `-n N` N blocks of different assignments alone, where that many satisfy; with
/// `--distinct` each block of values once in place of each assignment; of a model with a goal the block of a best assignment
/// and `==========`, with `-a` maybe after others, each better than the one before it; of a generated model `items=N best=V` in
/// place of both; where none satisfies, `=====UNSATISFIABLE=====` alone; of a text that is refused, the place, the code and
/// `=====ERROR=====`. A split prints a line for each part; the run of a part begins with `%%%part P`, and after its blocks come the
/// last one's value and the ending, each behind `%%%`. After all but a refusal `-s` prints how many assignments were listed; after `==========` of a model with a
/// goal, and where none satisfies, `--certificate` prints the certificate of that. Each block, each last line, the two lines of
/// statistics, each line of a certificate and each refusal is one piece for the sink, and one flush comes last, whenever something was written.
/// Each block is handed to the sink as the solution is found, and handed on where that is due; workers that take turns hand on theirs
/// at the end.
///
/// With `-p N` above 1 and without `--interleave` the workers search in threads of `rt`, and `gate` sees their events. Every other run
/// takes no thread, waits for nobody and makes no call of the gate.
pub fn fzn<T: Threads + Wait + Sync, R: Source, S: Sink + Send, G: Gate + Sync>(
    rt: &T,
    alloc: Global,
    words: &[String],
    source: &mut R,
    sink: &mut S,
    gate: &G,
) -> Status
    requires source { R.faults source.old < 2 ^ 64 - 1 }
    requires sink { S.faults sink.old < 2 ^ 64 - 1 }

    // Usage comes exactly where the words are refused, unless there was no memory to read them; then no call is made.
    ensures usage { result ≡ Status.Usage → options_of (map string_bytes words.now) ≡ None }
    ensures words { options_of (map string_bytes words.now) ≡ None
        → (result ≡ Status.Usage) ⊎ (result ≡ Status.NoMemory) }
    ensures untouched { options_of (map string_bytes words.now) ≡ None
        → (source.new ≡ source.old) × (sink.new ≡ sink.old) }

    // A run that generates its model makes no call of the source.
    ensures generated { IfSome (options_of (map string_bytes words.now)) (λ o.
        IfSome o.generate (λ _. source.new ≡ source.old)) }

    // Its text is accepted: it is never refused, and where no count rose it is done, unless memory is refused.
    ensures unrefused { IfSome (options_of (map string_bytes words.now)) (λ o.
        IfSome o.generate (λ _. IsUnrefused result)) }
    ensures made { S.faults sink.new ≡ S.faults sink.old
        → IfSome (options_of (map string_bytes words.now)) (λ o.
        IfSome o.generate (λ _. IsDoneOrShort result)) }

    // Every other run selects one text, once: that of FILE. No call changes the source's texts.
    ensures once { IfSome (options_of (map string_bytes words.now)) (λ o. o.generate ≡ None
        → SelectsOnce result (R.selections source.old) (R.selections source.new)) }
    ensures selected { IfSome (options_of (map string_bytes words.now)) (λ o. o.generate ≡ None
        → HasSelected result (R.selections source.old) (R.selections source.new)
        (R.is_selected source.new o.file)) }
    ensures texts { R.texts source.new ≡ R.texts source.old }
    ensures whole { IfSome (options_of (map string_bytes words.now)) (λ o. o.generate ≡ None
        → HasReadAll result (R.left source.new)) }

    // What is printed of the text, the file's or the generated one: at Done the run of it, at Refused its first refusal; else a
    // front.
    ensures printed { IfSome (options_of (map string_bytes words.now)) (λ o.
        Runs result o (text_for o (R.texts source.old o.file)) (S.taken sink.old) (S.taken sink.new)) }
    ensures flushed { IsFlushed result (S.taken sink.old) (S.taken sink.new) (S.flushed sink.new) }

    // Each answer has its cause: Done and Refused come only where no count rose, a fault only where its own did.
    ensures cause { HasItsCause result (R.faults source.old) (R.faults source.new)
        (S.faults sink.old) (S.faults sink.new) }

    // Where no count rose, an accepted text is Done and a refused one is Refused, unless memory is refused. A part of an accepted
    // one is Done exactly where its model has that part.
    ensures accepted { R.faults source.new ≡ R.faults source.old
        → S.faults sink.new ≡ S.faults sink.old
        → IfSome (options_of (map string_bytes words.now)) (λ o. o.part ≡ None
        → AnswersAccepted result (text_for o (R.texts source.old o.file))) }
    ensures parted { R.faults source.new ≡ R.faults source.old
        → S.faults sink.new ≡ S.faults sink.old
        → IfSome (options_of (map string_bytes words.now)) (λ o. IfSome o.part (λ part.
        AnswersPart result part o.better (text_for o (R.texts source.old o.file)))) }
    ensures refused { R.faults source.new ≡ R.faults source.old
        → S.faults sink.new ≡ S.faults sink.old
        → IfSome (options_of (map string_bytes words.now)) (λ o.
        AnswersRefused result (text_for o (R.texts source.old o.file))) }
{
    match options(alloc, words) {
        Ok(Some(options)) => run_with(rt, alloc, &options, source, sink, gate),
        Ok(None) => Status::Usage,
        Err(_) => Status::NoMemory,
    }
}

/// The run of these options by threads, where several workers are asked for that take no turns; else by this thread alone.
fn run_with<T: Threads + Wait + Sync, R: Source, S: Sink + Send, G: Gate + Sync>(
    rt: &T,
    alloc: Global,
    options: &Options,
    source: &mut R,
    sink: &mut S,
    gate: &G,
) -> Status
    requires source { R.faults source.old < 2 ^ 64 - 1 }
    requires sink { S.faults sink.old < 2 ^ 64 - 1 }
    ensures generated { IfSome options.now.generate (λ _. source.new ≡ source.old) }
    ensures unrefused { IfSome options.now.generate (λ _. IsUnrefused result) }
    ensures made { S.faults sink.new ≡ S.faults sink.old
        → IfSome options.now.generate (λ _. IsDoneOrShort result) }
    ensures once { options.now.generate ≡ None
        → SelectsOnce result (R.selections source.old) (R.selections source.new) }
    ensures selected { options.now.generate ≡ None
        → HasSelected result (R.selections source.old) (R.selections source.new)
        (R.is_selected source.new options.now.file) }
    ensures texts { R.texts source.new ≡ R.texts source.old }
    ensures whole { options.now.generate ≡ None → HasReadAll result (R.left source.new) }
    ensures printed { Runs result options.now
        (text_for options.now (R.texts source.old options.now.file))
        (S.taken sink.old) (S.taken sink.new) }
    ensures flushed { IsFlushed result (S.taken sink.old) (S.taken sink.new) (S.flushed sink.new) }
    ensures cause { HasItsCause result (R.faults source.old) (R.faults source.new)
        (S.faults sink.old) (S.faults sink.new) }
    ensures used { result ≢ Status.Usage }
{
    if options.workers() < 2 || options.interleave().is_some() {
        return alone(alloc, options, source, sink);
    }
    run_options(
        alloc,
        &|model: Arc<Model>, sink: &mut S|
            requires { S.faults sink.old < 2 ^ 64 - 1 }
        { search_in_threads::<T, Space, S, G>(rt, alloc, &model, options, sink, gate) },
        options,
        source,
        sink,
    )
}

/// The run of these options by this thread alone, which waits for nobody: by one worker, or by several that take turns.
pub fn alone<R: Source, S: Sink>(
    alloc: Global,
    options: &Options,
    source: &mut R,
    sink: &mut S,
) -> Status
    requires source { R.faults source.old < 2 ^ 64 - 1 }
    requires sink { S.faults sink.old < 2 ^ 64 - 1 }
    ensures generated { IfSome options.now.generate (λ _. source.new ≡ source.old) }
    ensures unrefused { IfSome options.now.generate (λ _. IsUnrefused result) }
    ensures made { S.faults sink.new ≡ S.faults sink.old
        → IfSome options.now.generate (λ _. IsDoneOrShort result) }
    ensures once { options.now.generate ≡ None
        → SelectsOnce result (R.selections source.old) (R.selections source.new) }
    ensures selected { options.now.generate ≡ None
        → HasSelected result (R.selections source.old) (R.selections source.new)
        (R.is_selected source.new options.now.file) }
    ensures texts { R.texts source.new ≡ R.texts source.old }
    ensures whole { options.now.generate ≡ None → HasReadAll result (R.left source.new) }
    ensures printed { Runs result options.now
        (text_for options.now (R.texts source.old options.now.file))
        (S.taken sink.old) (S.taken sink.new) }
    ensures flushed { IsFlushed result (S.taken sink.old) (S.taken sink.new) (S.flushed sink.new) }
    ensures cause { HasItsCause result (R.faults source.old) (R.faults source.new)
        (S.faults sink.old) (S.faults sink.new) }
    ensures used { result ≢ Status.Usage }
{
    run_options(
        alloc,
        &|model: Arc<Model>, sink: &mut S| search::<Space, S>(alloc, &model, options, sink),
        options,
        source,
        sink,
    )
}

/// The run of these options, with this search: of a generated text, or of one file's.
fn run_options<F: Fn(Arc<Model>, &mut S) -> Result<Printer, AllocError>, R: Source, S: Sink>(
    alloc: Global,
    search_by: &F,
    options: &Options,
    source: &mut R,
    sink: &mut S,
) -> Status
    requires callable { (m : _) (s : _) → S.faults s.now < 2 ^ 64 - 1 → F.pre search_by.now m s }
    requires searches { (m : _) (s : _) (r : _) (t : _) → F.post search_by.now m s r t
        → HasSearched (arc_value m) options.now r
        (S.taken s.now) (S.taken t.now) (S.faults s.now) (S.faults t.now) }
    requires source { R.faults source.old < 2 ^ 64 - 1 }
    requires sink { S.faults sink.old < 2 ^ 64 - 1 }
    ensures generated { IfSome options.now.generate (λ _. source.new ≡ source.old) }
    ensures unrefused { IfSome options.now.generate (λ _. IsUnrefused result) }
    ensures made { S.faults sink.new ≡ S.faults sink.old
        → IfSome options.now.generate (λ _. IsDoneOrShort result) }
    ensures once { options.now.generate ≡ None
        → SelectsOnce result (R.selections source.old) (R.selections source.new) }
    ensures selected { options.now.generate ≡ None
        → HasSelected result (R.selections source.old) (R.selections source.new)
        (R.is_selected source.new options.now.file) }
    ensures texts { R.texts source.new ≡ R.texts source.old }
    ensures whole { options.now.generate ≡ None → HasReadAll result (R.left source.new) }
    ensures printed { Runs result options.now
        (text_for options.now (R.texts source.old options.now.file))
        (S.taken sink.old) (S.taken sink.new) }
    ensures flushed { IsFlushed result (S.taken sink.old) (S.taken sink.new) (S.flushed sink.new) }
    ensures cause { HasItsCause result (R.faults source.old) (R.faults source.new)
        (S.faults sink.old) (S.faults sink.new) }
    ensures used { result ≢ Status.Usage }
{
    let _ = options.part();
    match options.generate() {
        Some(items) => run_generated(alloc, search_by, items, options, sink),
        None => run_file(alloc, search_by, options, source, sink),
    }
}

/// The run of a generated model of that many items.
fn run_generated<F: Fn(Arc<Model>, &mut S) -> Result<Printer, AllocError>, S: Sink>(
    alloc: Global,
    search_by: &F,
    items: u32,
    options: &Options,
    sink: &mut S,
) -> Status
    requires callable { (m : _) (s : _) → S.faults s.now < 2 ^ 64 - 1 → F.pre search_by.now m s }
    requires searches { (m : _) (s : _) (r : _) (t : _) → F.post search_by.now m s r t
        → HasSearched (arc_value m) options.now r
        (S.taken s.now) (S.taken t.now) (S.faults s.now) (S.faults t.now) }
    requires least { ITEMS_LEAST ≤ items }
    requires most { items ≤ ITEMS_MOST }
    requires part { options.now.part ≡ None }
    requires faults { S.faults sink.old < 2 ^ 64 - 1 }
    ensures unrefused { IsUnrefused result }
    ensures made { S.faults sink.new ≡ S.faults sink.old → IsDoneOrShort result }
    ensures printed { PrintsOf result (texts.knapsack items) options.now
        (S.taken sink.old) (S.taken sink.new) }
    ensures flushed { IsFlushed result (S.taken sink.old) (S.taken sink.new) (S.flushed sink.new) }
    ensures cause { HasSinkCause result (S.faults sink.old) (S.faults sink.new) }
{
    match knapsack(alloc, items) {
        Ok(generated) => run_text(alloc, search_by, generated, options, sink),
        Err(_) => Status::NoMemory,
    }
}

/// The run of one file.
fn run_file<F: Fn(Arc<Model>, &mut S) -> Result<Printer, AllocError>, R: Source, S: Sink>(
    alloc: Global,
    search_by: &F,
    options: &Options,
    source: &mut R,
    sink: &mut S,
) -> Status
    requires callable { (m : _) (s : _) → S.faults s.now < 2 ^ 64 - 1 → F.pre search_by.now m s }
    requires searches { (m : _) (s : _) (r : _) (t : _) → F.post search_by.now m s r t
        → HasSearched (arc_value m) options.now r
        (S.taken s.now) (S.taken t.now) (S.faults s.now) (S.faults t.now) }
    requires source { R.faults source.old < 2 ^ 64 - 1 }
    requires sink { S.faults sink.old < 2 ^ 64 - 1 }
    ensures once { R.selections source.new ≡ one_more (R.selections source.old) }
    ensures selected { HasSelected result (R.selections source.old) (R.selections source.new)
        (R.is_selected source.new options.now.file) }
    ensures texts { R.texts source.new ≡ R.texts source.old }
    ensures whole { HasReadAll result (R.left source.new) }
    ensures printed { Runs result options.now (R.texts source.old options.now.file)
        (S.taken sink.old) (S.taken sink.new) }
    ensures flushed { IsFlushed result (S.taken sink.old) (S.taken sink.new) (S.flushed sink.new) }
    ensures cause { HasItsCause result (R.faults source.old) (R.faults source.new)
        (S.faults sink.old) (S.faults sink.new) }
    ensures used { result ≢ Status.Usage }
{
    match read_text(alloc, file_of(options), source) {
        Ok(text) => run_text(alloc, search_by, text, options, sink),
        Err(Stop::Fault) => Status::SourceFault,
        Err(Stop::Memory) => Status::NoMemory,
    }
}

/// The name of the file that is read.
fn file_of(options: &Options) -> &str
    ensures { result.now ≡ options.now.file }
{
    options.file().as_str()
}

/// The text of a file, or the first bytes of one that is too long, of which there is one over the limit.
fn read_text<R: Source>(alloc: Global, file: &str, source: &mut R) -> Result<Vec<u8>, Stop>
    requires { R.faults source.old < 2 ^ 64 - 1 }
    ensures once { R.selections source.new ≡ one_more (R.selections source.old) }
    ensures selected { SelectsAt result (R.is_selected source.new file.now) }
    ensures texts { R.texts source.new ≡ R.texts source.old }
    ensures whole { IfOk result (λ text. LeavesNothing (length text.items) (R.left source.new)) }
    ensures read { IfOk result (λ text. IsReadOf (R.texts source.old file.now) text.items) }
    ensures cause { HasStopCause (R.faults source.old) (R.faults source.new) result }
{
    match source.select(file) {
        Ok(()) => read_selected(alloc, source),
        Err(_) => Err(Stop::Fault),
    }
}

/// The text that is selected, or its first bytes where it is too long, of which there is one over the limit.
fn read_selected<R: Source>(alloc: Global, source: &mut R) -> Result<Vec<u8>, Stop>
    requires { R.faults source.old < 2 ^ 64 - 1 }
    ensures once { R.selections source.new ≡ R.selections source.old }
    ensures selected { R.is_selected source.new ≡ R.is_selected source.old }
    ensures texts { R.texts source.new ≡ R.texts source.old }
    ensures whole { IfOk result (λ text. LeavesNothing (length text.items) (R.left source.new)) }
    ensures read { IfOk result (λ text. IsReadOf (R.left source.old) text.items) }
    ensures cause { HasStopCause (R.faults source.old) (R.faults source.new) result }
{
    match read_all(alloc, source, TEXT_LIMIT) {
        Ok(Whole::Bytes(text)) => Ok(text),
        Ok(Whole::TooLong(text)) => Ok(text),
        Ok(Whole::Failed) => Err(Stop::Fault),
        Err(_) => Err(Stop::Memory),
    }
}

/// The run of a text, which is let go before the search.
fn run_text<F: Fn(Arc<Model>, &mut S) -> Result<Printer, AllocError>, S: Sink>(
    alloc: Global,
    search_by: &F,
    text: Vec<u8>,
    options: &Options,
    sink: &mut S,
) -> Status
    requires callable { (m : _) (s : _) → S.faults s.now < 2 ^ 64 - 1 → F.pre search_by.now m s }
    requires searches { (m : _) (s : _) (r : _) (t : _) → F.post search_by.now m s r t
        → HasSearched (arc_value m) options.now r
        (S.taken s.now) (S.taken t.now) (S.faults s.now) (S.faults t.now) }
    requires faults { S.faults sink.old < 2 ^ 64 - 1 }
    ensures printed { PrintsOf result text.items options.now (S.taken sink.old) (S.taken sink.new) }
    ensures flushed { IsFlushed result (S.taken sink.old) (S.taken sink.new) (S.flushed sink.new) }
    ensures cause { HasSinkCause result (S.faults sink.old) (S.faults sink.new) }
{
    match read_model(alloc, text) {
        Ok(Ok(model)) => run_model(alloc, search_by, model, options, sink),
        Ok(Err(refused)) => refuse(alloc, refused, sink),
        Err(_) => Status::NoMemory,
    }
}

/// What is read of a text, which is let go.
fn read_model(alloc: Global, text: Vec<u8>) -> Result<Result<Model, Refusal>, AllocError>
    ensures { IfOk result (λ reading. MatchResult reading
        (λ model. Reads text.items (Accepted model)) (IsRefusal text.items)) }
{
    model_of(alloc, &text)
}

/// Prints what is asked for of a model.
fn run_model<F: Fn(Arc<Model>, &mut S) -> Result<Printer, AllocError>, S: Sink>(
    alloc: Global,
    search_by: &F,
    model: Model,
    options: &Options,
    sink: &mut S,
) -> Status
    requires callable { (m : _) (s : _) → S.faults s.now < 2 ^ 64 - 1 → F.pre search_by.now m s }
    requires searches { (m : _) (s : _) (r : _) (t : _) → F.post search_by.now m s r t
        → HasSearched (arc_value m) options.now r
        (S.taken s.now) (S.taken t.now) (S.faults s.now) (S.faults t.now) }
    requires faults { S.faults sink.old < 2 ^ 64 - 1 }
    ensures printed { PrintsModel result model options.now (S.taken sink.old) (S.taken sink.new) }
    ensures flushed { IsFlushed result (S.taken sink.old) (S.taken sink.new) (S.flushed sink.new) }
    ensures cause { HasSinkCause result (S.faults sink.old) (S.faults sink.new) }
{
    if let Some(part) = options.part() {
        let text = part.as_str().as_bytes();
        return run_part(alloc, search_by, model, text, options, sink);
    }
    match options.split() {
        Some(most) => run_split(alloc, model, most, options, sink),
        None => run_whole(alloc, search_by, model, options, sink),
    }
}

/// Searches a model, and prints its run.
fn run_whole<F: Fn(Arc<Model>, &mut S) -> Result<Printer, AllocError>, S: Sink>(
    alloc: Global,
    search_by: &F,
    model: Model,
    options: &Options,
    sink: &mut S,
) -> Status
    requires callable { (m : _) (s : _) → S.faults s.now < 2 ^ 64 - 1 → F.pre search_by.now m s }
    requires searches { (m : _) (s : _) (r : _) (t : _) → F.post search_by.now m s r t
        → HasSearched (arc_value m) options.now r
        (S.taken s.now) (S.taken t.now) (S.faults s.now) (S.faults t.now) }
    requires asked { AskForWhole options.now }
    requires faults { S.faults sink.old < 2 ^ 64 - 1 }
    ensures printed { PrintsModel result model options.now (S.taken sink.old) (S.taken sink.new) }
    ensures flushed { IsFlushed result (S.taken sink.old) (S.taken sink.new) (S.flushed sink.new) }
    ensures cause { HasSinkCause result (S.faults sink.old) (S.faults sink.new) }
{
    let _ = model.goal();
    let Ok(printer) = searched(alloc, search_by, model, options, sink) else {
        return Status::NoMemory;
    };
    match printer.stopped() {
        None => conclude(alloc, &printer, options, sink),
        Some(Stop::Memory) => flush(sink, Status::NoMemory),
        Some(Stop::Fault) => Status::SinkFault,
    }
}

/// Prints what isn't printed yet of a search that has ended, and flushes.
fn conclude<S: Sink>(alloc: Global, printer: &Printer, options: &Options, sink: &mut S) -> Status
    requires asked { AskForWhole options.now }
    requires ended { IsEnded options.now printer.now }
    requires faults { S.faults sink.old < 2 ^ 64 - 1 }
    ensures printed { (before : Option (List ℕ)) → HasPrinted printer.now before (S.taken sink.old)
        → PrintsModel result (book_of printer.now).model options.now before (S.taken sink.new) }
    ensures flushed { result ≢ Status.SinkFault
        → AllFlushed (S.taken sink.new) (S.flushed sink.new) }
    ensures cause { HasSearchCause result (S.faults sink.old) (S.faults sink.new) }
{
    match print_rest(alloc, printer, options, sink) {
        Ok(()) => flush(sink, Status::Done),
        Err(Stop::Memory) => flush(sink, Status::NoMemory),
        Err(Stop::Fault) => Status::SinkFault,
    }
}

/// Prints what isn't printed yet, and after it the certificate where one is asked for.
fn print_rest<S: Sink>(
    alloc: Global,
    printer: &Printer,
    options: &Options,
    sink: &mut S,
) -> Result<(), Stop>
    requires ended { IsEnded options.now printer.now }
    requires faults { S.faults sink.old < 2 ^ 64 - 1 }
    ensures whole { (before : Option (List ℕ)) → HasPrinted printer.now before (S.taken sink.old)
        → OnOk result (ShowsWhole (book_of printer.now).model options.now before (S.taken sink.new)) }
    ensures front { (before : Option (List ℕ)) → HasPrinted printer.now before (S.taken sink.old)
        → OnErr result (ShowsFront (book_of printer.now).model options.now before (S.taken sink.new)) }
    ensures cause { HasStopCause (S.faults sink.old) (S.faults sink.new) result }
{
    if printer.as_found() {
        print_behind(alloc, printer, options, sink)
    } else {
        print_all(alloc, printer, options, sink)
    }
}

/// Prints what stands after the blocks where these were printed as they were found.
fn print_behind<S: Sink>(
    alloc: Global,
    printer: &Printer,
    options: &Options,
    sink: &mut S,
) -> Result<(), Stop>
    requires ended { IsEnded options.now printer.now }
    requires found { as_found_of printer.now ≡ true }
    requires faults { S.faults sink.old < 2 ^ 64 - 1 }
    ensures whole { (before : Option (List ℕ)) → HasPrinted printer.now before (S.taken sink.old)
        → OnOk result (ShowsWhole (book_of printer.now).model options.now before (S.taken sink.new)) }
    ensures front { (before : Option (List ℕ)) → HasPrinted printer.now before (S.taken sink.old)
        → OnErr result (ShowsFront (book_of printer.now).model options.now before (S.taken sink.new)) }
    ensures cause { HasStopCause (S.faults sink.old) (S.faults sink.new) result }
{
    let book = printer.book();
    let model = book.model();
    let tally = tally_of(book, options);
    let head = to_certify(options, model.goal(), tally.count, book.incumbent());
    print_end(alloc, sink, options, tally.count as u64, tally.complete)?;
    certify(alloc, sink, model, head)
}

/// Prints all that is shown.
fn print_all<S: Sink>(
    alloc: Global,
    printer: &Printer,
    options: &Options,
    sink: &mut S,
) -> Result<(), Stop>
    requires ended { IsEnded options.now printer.now }
    requires unfound { as_found_of printer.now ≡ false }
    requires faults { S.faults sink.old < 2 ^ 64 - 1 }
    ensures whole { (before : Option (List ℕ)) → HasPrinted printer.now before (S.taken sink.old)
        → OnOk result (ShowsWhole (book_of printer.now).model options.now before (S.taken sink.new)) }
    ensures front { (before : Option (List ℕ)) → HasPrinted printer.now before (S.taken sink.old)
        → OnErr result (ShowsFront (book_of printer.now).model options.now before (S.taken sink.new)) }
    ensures cause { HasStopCause (S.faults sink.old) (S.faults sink.new) result }
{
    let book = printer.book();
    let model = book.model();
    let listing = listing_of(book, options);
    let found = listing.found;
    let head = to_certify(options, model.goal(), found.len(), found.last());
    print_run(alloc, sink, model, options, found, listing.complete)?;
    certify(alloc, sink, model, head)
}

/// What is certified, where that is asked for: that the last of that many is best, or that none satisfies.
fn to_certify<'a>(
    options: &Options,
    goal: &Goal,
    count: usize,
    last: Option<&'a Assignment>,
) -> Option<Option<&'a Assignment>>
    ensures { option_map (λ h. option_copied h) result
        ≡ certified_after options.now.certificate goal.now count (option_copied last.entry) }
{
    if !options.certificate() {
        return None;
    }
    match goal {
        Goal::Satisfy if count > 0 => None,
        Goal::Satisfy => Some(None),
        Goal::Minimize(_) | Goal::Maximize(_) => Some(last),
    }
}

/// Prints the certificate, where something is certified.
fn certify<S: Sink>(
    alloc: Global,
    sink: &mut S,
    model: &Model,
    head: Option<Option<&Assignment>>,
) -> Result<(), Stop>
    requires faults { S.faults sink.old < 2 ^ 64 - 1 }
    requires certifiable { IsCertifiable model.now (option_map (λ h. option_copied h) head) }
    ensures taken { OnOk result
        (TakesOne (IsCertificate model.now (option_map (λ h. option_copied h) head.entry))
        (S.taken sink.old) (S.taken sink.new)) }
    ensures front { OnErr result
        (TakesFrontOfOne (IsCertificate model.now (option_map (λ h. option_copied h) head.entry))
        (S.taken sink.old) (S.taken sink.new)) }
    ensures cause { HasStopCause (S.faults sink.old) (S.faults sink.new) result }
{
    match head {
        Some(head) => print_certificate(alloc, sink, model, head),
        None => Ok(()),
    }
}

/// Prints a refusal.
fn refuse<S: Sink>(alloc: Global, refused: Refusal, sink: &mut S) -> Status
    requires { S.faults sink.old < 2 ^ 64 - 1 }
    ensures printed { Answers result (Status.Refused refused) (text_of refused)
        (S.taken sink.old) (S.taken sink.new) }
    ensures flushed { IsFlushed result (S.taken sink.old) (S.taken sink.new) (S.flushed sink.new) }
    ensures cause { HasSinkCause result (S.faults sink.old) (S.faults sink.new) }
{
    match print_refusal(alloc, sink, &refused) {
        Ok(()) => flush(sink, Status::Refused(refused)),
        Err(Stop::Memory) => flush(sink, Status::NoMemory),
        Err(Stop::Fault) => Status::SinkFault,
    }
}

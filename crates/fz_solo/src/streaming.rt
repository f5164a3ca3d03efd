//! Searching and printing, by turns.
ghost use Rattle.std.specs.Prelude.{◌≡◌, ◌≢◌, ◌↔◌, ◌<◌, ◌^◌, ◌-◌, ◌⊎◌, [], None, Some, true, false, length, IfSome, IsSomeAnd, IsTrue, IsFalse};
ghost use Rattle.fz_tree.specs.declared.mode.Mode.TheVariants as modes;
ghost use Rattle.fz_tree.specs.Book.{Takes};
ghost use Rattle.fz_book.specs.Reports.{IsReportable};
ghost use Rattle.fz_path.specs.Paths.{bare, held_behind, with_held};
ghost use Rattle.fz_printer.specs.declared.printing.Stop.TheVariants as stops;
ghost use Rattle.fz_printer.specs.Printed.{as_found_of, book_of, printed_of, stopped_of, CountsMark, Grew, IsReady, KeepsPrinting};
ghost use Rattle.fz_solo.specs.declared.stretches.Halt.TheVariants as halts;
ghost use Rattle.fz_solo.specs.declared.stretches.Pause.TheVariants as pauses;
ghost use Rattle.fz_solo.specs.Searches.{IsTold};
ghost use Rattle.fz_printer.specs.Gathered.{IsFilled};
ghost use Rattle.fz_solo.specs.Streamed.{HasAdvanced, HasTakenUp, IsBatch, NothingOpen, OnNoMemory, Streams};

use crate::solo::take_up;
use crate::stretches::{Halt, Pause, stretch};
use fz_io::outside::Sink;
use fz_path::Path;
use fz_printer::{Printer, hand_on_if_due, has_stopped, is_filled};
use fz_search_space::SearchSpace;
use fz_tree::mode::Mode;
use std::alloc::Global;

/// What a printer is to know of a search.
#[derive(Debug, Clone, Copy, PartialEq, Eq)]
enum Message {
    Better,
    Account,
    Nothing,
}

/// Searches what is open in the printer's book, and prints solutions as they are found, until nothing is open, as many are
/// recorded as are wanted, the sink failed or memory was refused.
pub fn stream<S: SearchSpace, K: Sink>(
    alloc: Global,
    printer: &mut Printer,
    path: &mut Path<S>,
    sink: &mut K,
)
    requires working { stopped_of printer.old ≡ None }
    requires ready { IsReady printer.old }
    requires faults { K.faults sink.old < 2 ^ 64 - 1 }
    requires held { IfSome path.old.held (IsReportable (book_of printer.old)) }
    requires model { path.old.model ≡ (book_of printer.old).model }
    requires mode { path.old.mode ≡ (book_of printer.old).mode }
    ensures streams { Streams printer.old (bare path.old) (K.taken sink.old)
        printer.new (bare path.new) (K.taken sink.new) }
    ensures ended { stopped_of printer.new ≡ None
        → IsFilled printer.new ⊎ ((book_of printer.new).parts ≡ []) }
    ensures ready { stopped_of printer.new ≡ None → IsReady printer.new }
    ensures cause { CountsMark (K.faults sink.old) (K.faults sink.new) (stopped_of printer.new) }
{
    'parts: loop {
        if is_filled(printer) {
            return;
        }
        if !takes_up(printer, path) {
            return;
        }
        if !search_part(alloc, printer, path, sink) {
            return;
        }
    }
}

/// The path takes up an open part, if it holds none. It says whether the path holds one now; where there is no memory, that is
/// marked.
fn takes_up<S: SearchSpace>(printer: &mut Printer, path: &mut Path<S>) -> bool
    requires working { stopped_of printer.old ≡ None }
    requires held { IfSome path.old.held (IsReportable (book_of printer.old)) }
    requires model { path.old.model ≡ (book_of printer.old).model }
    requires mode { path.old.mode ≡ (book_of printer.old).mode }
    ensures holds { IsTrue result → (printer.new ≡ printer.old)
        × IsSomeAnd path.new.held (IsReportable (book_of printer.old)) }
    ensures nothing { IsFalse result → NothingOpen printer.old printer.new }
    ensures moved { OnNoMemory printer.new
        (HasTakenUp (book_of printer.old) (bare path.old) (bare path.new)) }
    ensures path { path.new.model ≡ path.old.model }
    ensures path_mode { path.new.mode ≡ path.old.mode }
{
    match take_up(printer.book(), path) {
        Ok(holds) => holds,
        Err(_) => {
            printer.refuse();
            false
        }
    }
}

/// Searches what the path holds, and prints solutions as they are found. It says whether the search goes on with other parts.
fn search_part<S: SearchSpace, K: Sink>(
    alloc: Global,
    printer: &mut Printer,
    path: &mut Path<S>,
    sink: &mut K,
) -> bool
    requires working { stopped_of printer.old ≡ None }
    requires ready { IsReady printer.old }
    requires faults { K.faults sink.old < 2 ^ 64 - 1 }
    requires held { IsSomeAnd path.old.held (IsReportable (book_of printer.old)) }
    requires model { path.old.model ≡ (book_of printer.old).model }
    requires mode { path.old.mode ≡ (book_of printer.old).mode }
    requires more { IsFilled printer.old → ⊥ }
    ensures streams { Streams printer.old (bare path.old) (K.taken sink.old)
        printer.new (bare path.new) (K.taken sink.new) }
    ensures goes_on { IsTrue result → (stopped_of printer.new ≡ None) × (path.new.held ≡ None)
        × (length (book_of printer.new).parts < length (book_of printer.old).parts) }
    ensures ended { IsFalse result → stopped_of printer.new ≡ None → IsFilled printer.new }
    ensures ready { stopped_of printer.new ≡ None → IsReady printer.new }
    ensures cause { CountsMark (K.faults sink.old) (K.faults sink.new) (stopped_of printer.new) }
    ensures path { path.new.model ≡ path.old.model }
    ensures path_mode { path.new.mode ≡ path.old.mode }
{
    let mut waited: u64 = 1;
    'stretches: loop {
        advance(alloc, printer, path, sink, waited);
        if has_stopped(printer) {
            return false;
        }
        if is_filled(printer) {
            return false;
        }
        if path.is_idle() {
            return true;
        }
        hand_on_if_due(printer, sink);
        if has_stopped(printer) {
            return false;
        }
        waited = waits(path, waited);
    }
}

/// How often solutions that are found will have waited for a report, with the next time.
fn waits<S: SearchSpace>(path: &Path<S>, waited: u64) -> u64 {
    if path.found_count() == 0 {
        return 1;
    }
    waited.saturating_add(1)
}

/// A stretch of the search, and what the printer is to know of it.
fn advance<S: SearchSpace, K: Sink>(
    alloc: Global,
    printer: &mut Printer,
    path: &mut Path<S>,
    sink: &mut K,
    waited: u64,
)
    requires working { stopped_of printer.old ≡ None }
    requires ready { IsReady printer.old }
    requires faults { K.faults sink.old < 2 ^ 64 - 1 }
    requires held { IsSomeAnd path.old.held (IsReportable (book_of printer.old)) }
    requires model { path.old.model ≡ (book_of printer.old).model }
    requires mode { path.old.mode ≡ (book_of printer.old).mode }
    requires more { IsFilled printer.old → ⊥ }
    ensures streams { Streams printer.old (bare path.old) (K.taken sink.old)
        printer.new (bare path.new) (K.taken sink.new) }
    ensures advanced { stopped_of printer.new ≡ None → HasAdvanced
        (book_of printer.old) path.old.held (book_of printer.new) path.new.held }
    ensures ready { stopped_of printer.new ≡ None → IsReady printer.new }
    ensures cause { CountsMark (K.faults sink.old) (K.faults sink.new) (stopped_of printer.new) }
    ensures path { path.new.model ≡ path.old.model }
    ensures path_mode { path.new.mode ≡ path.old.mode }
{
    let halt = halt_of(printer);
    let Ok(pause) = stretch(path, halt, waited, sink) else {
        printer.refuse();
        return;
    };
    match message_of(halt, pause) {
        Message::Better => tell(alloc, printer, path, sink),
        Message::Account => report(alloc, printer, path, sink),
        Message::Nothing => {}
    }
}

/// When a stretch is to end: where solutions are printed as they are found, at each better one, or at that many as are still wanted.
fn halt_of(printer: &Printer) -> Halt
    ensures each { result ≡ halts.Each → as_found_of printer.now ≡ true }
    ensures quiet { result ≢ halts.Each
        → (as_found_of printer.now ≡ false) ⊎ ((book_of printer.now).mode ≢ modes.Best) }
    ensures batch { IsBatch result → (book_of printer.now).mode ≢ modes.Best }
{
    if !printer.as_found() {
        return Halt::Never;
    }
    match printer.book().mode() {
        Mode::Best => Halt::Each,
        Mode::All | Mode::Rows => Halt::Batch(still_wanted(printer)),
    }
}

/// How many more are wanted.
fn still_wanted(printer: &Printer) -> Option<u64> {
    let recorded = printer.book().recorded_count() as u64;
    match printer.wanted() {
        Some(count) => Some((count as u64).saturating_sub(recorded)),
        None => None,
    }
}

/// What the printer is to know after a stretch: the better solution that was found, or an account of what was done.
fn message_of(halt: Halt, pause: Pause) -> Message
    ensures better { result ≡ Message.Better → (halt ≡ halts.Each) × (pause ≡ pauses.Found) }
    ensures told { result ≢ Message.Better → halt ≡ halts.Each → pause ≢ pauses.Found }
    ensures account { result ≡ Message.Account → (pause ≡ pauses.Closed) ⊎ IsBatch halt }
    ensures nothing { result ≡ Message.Nothing → pause ≢ pauses.Closed }
{
    match (halt, pause) {
        (Halt::Each, Pause::Found) => Message::Better,
        (_, Pause::Closed) => Message::Account,
        (Halt::Batch(_), Pause::Found) => Message::Account,
        _ => Message::Nothing,
    }
}

/// The printer takes the best that the path knows.
fn tell<S: SearchSpace, K: Sink>(alloc: Global, printer: &mut Printer, path: &Path<S>, sink: &mut K)
    requires working { stopped_of printer.old ≡ None }
    requires ready { IsReady printer.old }
    requires faults { K.faults sink.old < 2 ^ 64 - 1 }
    requires model { path.now.model ≡ (book_of printer.old).model }
    ensures told { OnNoMemory printer.new
        (IsTold true (book_of printer.old) path.now.known (book_of printer.new)) }
    ensures grew { Grew printer.old printer.new (K.taken sink.old) (K.taken sink.new) }
    ensures ready { stopped_of printer.new ≡ None → IsReady printer.new }
    ensures cause { CountsMark (K.faults sink.old) (K.faults sink.new) (stopped_of printer.new) }
{
    let Some(known) = path.known() else {
        return;
    };
    let Ok(found) = known.copy() else {
        printer.refuse();
        return;
    };
    printer.offer_found(alloc, sink, found);
}

/// The printer takes the account of what the path did.
fn report<S: SearchSpace, K: Sink>(
    alloc: Global,
    printer: &mut Printer,
    path: &mut Path<S>,
    sink: &mut K,
)
    requires working { stopped_of printer.old ≡ None }
    requires ready { IsReady printer.old }
    requires faults { K.faults sink.old < 2 ^ 64 - 1 }
    requires held { IsSomeAnd path.old.held (IsReportable (book_of printer.old)) }
    ensures taken { OnNoMemory printer.new (IsSomeAnd path.old.held
        (λ c. Takes (book_of printer.old) c (book_of printer.new)
        × (bare path.new ≡ with_held (bare path.old) (held_behind c)))) }
    ensures grew { Grew printer.old printer.new (K.taken sink.old) (K.taken sink.new) }
    ensures ready { stopped_of printer.new ≡ None → IsReady printer.new }
    ensures cause { CountsMark (K.faults sink.old) (K.faults sink.new) (stopped_of printer.new) }
    ensures path { path.new.model ≡ path.old.model }
    ensures path_mode { path.new.mode ≡ path.old.mode }
{
    let Ok(handed) = path.report() else {
        printer.refuse();
        return;
    };
    let Some(account) = handed else {
        unreachable!()
    };
    printer.account_own(alloc, sink, account);
}

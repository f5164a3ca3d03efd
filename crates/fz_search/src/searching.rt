//! The search of a model, and what is shown of it.
ghost use Rattle.std.specs.Prelude.{◌≡◌, ◌≢◌, ◌-◌, ◌<◌, ◌^◌, ℕ, Option, List, None, Some, true, drop, length, IfOk, OnErr};
ghost use Rattle.std.specs.Arc.{arc_value};
ghost use Rattle.fz_tree.specs.declared.mode.Mode.TheVariants as modes;
ghost use Rattle.fz_tree.specs.Better.{IsModeOf};
ghost use Rattle.fz_tree.specs.Book.{opening};
ghost use Rattle.fz_machine.specs.Cores.{starting};
ghost use Rattle.fz_runs.specs.Modes.{mode_for, mode_of};
ghost use Rattle.fz_runs.specs.Runs as runs;
ghost use Rattle.fz_runs.specs.Runs.{AreBest};
ghost use Rattle.fz_search.specs.Searched as searched;
ghost use Rattle.fz_printer.specs.declared.printing.Stop.TheVariants as stops;
ghost use Rattle.fz_printer.specs.Printed.{book_of, stopped_of, CountsMark};
ghost use Rattle.fz_search.specs.Searched.{enough_for, first_shown, IsAlone, IsByTurns, IsPrinted, IsSearched, IsSearchedBy, IsListing, IsShown, IsTally};

use fz_account::Mode;
use fz_book::Book;
use fz_cmd::Options;
use fz_io::outside::Sink;
use fz_machine::Machine;
use fz_model::assignment::Assignment;
use fz_model::model::Model;
use fz_path::Path;
use fz_printer::Printer;
use fz_search_space::SearchSpace;
use fz_solo::stream;
use fz_spec::goal::Goal;
use std::alloc::{AllocError, Global};
use std::sync::Arc;

/// What is shown of a search: solutions, and whether they are all.
#[derive(Clone, Copy)]
pub struct Listing<'a> {
    pub found: &'a [Assignment],
    pub complete: bool,
}

/// How many solutions are shown, and whether they are all.
#[derive(Clone, Copy, Debug, PartialEq, Eq)]
pub struct Tally {
    pub count: usize,
    pub complete: bool,
}

/// Searches a model for as many solutions as are asked for, or for a best one, over spaces of this kind. One worker prints
/// solutions as they are found, where each that is found is shown; workers that take turns print none.
///
/// # Errors
/// `AllocError` where there is no memory to begin with, or none for workers that take turns; nothing is printed.
pub fn search<S: SearchSpace, K: Sink>(
    alloc: Global,
    model: &Arc<Model>,
    options: &Options,
    sink: &mut K,
) -> Result<Printer, AllocError>
    requires accepts { S.accepts (arc_value model.now) }
    requires faults { K.faults sink.old < 2 ^ 64 - 1 }
    ensures printed { IfOk result (λ p. IsPrinted (arc_value model.now) options.now p
        (K.taken sink.old) (K.taken sink.new)) }
    ensures cause { IfOk result
        (λ p. CountsMark (K.faults sink.old) (K.faults sink.new) (stopped_of p)) }
    ensures by { IfOk result (λ p. stopped_of p ≢ Some stops.Memory
        → IsSearchedBy options.now.interleave (arc_value model.now) options.now (book_of p)) }
    ensures untaken { OnErr result (K.taken sink.new ≡ K.taken sink.old) }
    ensures no_fault { OnErr result (K.faults sink.new ≡ K.faults sink.old) }
{
    match options.interleave() {
        Some(seed) => search_by_turns::<S>(alloc, model, options, seed),
        None => search_alone::<S, K>(alloc, model, options, sink),
    }
}

/// By one worker.
fn search_alone<S: SearchSpace, K: Sink>(
    alloc: Global,
    model: &Arc<Model>,
    options: &Options,
    sink: &mut K,
) -> Result<Printer, AllocError>
    requires accepts { S.accepts (arc_value model.now) }
    requires faults { K.faults sink.old < 2 ^ 64 - 1 }
    ensures printed { IfOk result (λ p. IsPrinted (arc_value model.now) options.now p
        (K.taken sink.old) (K.taken sink.new)) }
    ensures cause { IfOk result
        (λ p. CountsMark (K.faults sink.old) (K.faults sink.new) (stopped_of p)) }
    ensures by { IfOk result (λ p. stopped_of p ≢ Some stops.Memory
        → IsAlone (arc_value model.now) options.now (book_of p)) }
    ensures untaken { OnErr result (K.taken sink.new ≡ K.taken sink.old) }
    ensures no_fault { OnErr result (K.faults sink.new ≡ K.faults sink.old) }
{
    let distance = options.commit_distance();
    let mode = mode_for(model.goal(), options);
    let book = begin(alloc, model, mode)?;
    let adaptive = options.adaptive_distance();
    let mut path: Path<S> = Path::idle(alloc, model.clone()?, mode, distance, adaptive)?;
    let wanted = enough_for(model.goal(), options);
    let mut printer = Printer::new(book, shows_found(model.goal(), options), wanted);
    stream(alloc, &mut printer, &mut path, sink);
    let _ = printer.book().model();
    Ok(printer)
}

/// By as many workers as are asked for, that take turns on this thread, from this seed on. Nothing is printed on the way.
fn search_by_turns<S: SearchSpace>(
    alloc: Global,
    model: &Arc<Model>,
    options: &Options,
    seed: u64,
) -> Result<Printer, AllocError>
    requires accepts { S.accepts (arc_value model.now) }
    ensures printed { IfOk result (λ p. (taken : Option (List ℕ))
        → IsPrinted (arc_value model.now) options.now p taken taken) }
    ensures by { IfOk result
        (λ p. IsByTurns (arc_value model.now) options.now seed (book_of p)) }
    ensures working { IfOk result (λ p. stopped_of p ≡ None) }
{
    let mode = mode_for(model.goal(), options);
    let mut machine = new_machine::<S>(alloc, model, mode, options)?;
    let enough = enough_for(model.goal(), options);
    machine.run(seed, enough)?;
    Ok(Printer::new(machine.into_book(), false, None))
}

/// As many idle workers as are asked for.
fn new_machine<S: SearchSpace>(
    alloc: Global,
    model: &Arc<Model>,
    mode: Mode,
    options: &Options,
) -> Result<Machine<S>, AllocError>
    requires accepts { S.accepts (arc_value model.now) }
    requires mode { IsModeOf (arc_value model.now).goal mode }
    ensures { IfOk result (λ m. m ≡ starting (arc_value model.now) mode
        options.now.workers options.now.commit_distance options.now.adaptive_distance) }
{
    let machine = Machine::new(
        alloc,
        model.clone()?,
        mode,
        options.workers(),
        options.commit_distance(),
        options.adaptive_distance(),
    )?;
    Ok(machine)
}

/// Whether all solutions of a goal are sought, or each of their rows, or a best one.
pub(crate) fn mode_for(goal: &Goal, options: &Options) -> Mode
    ensures is { result ≡ mode_for goal.now options.now }
    ensures own { IsModeOf goal.now result }
{
    match goal {
        Goal::Satisfy if options.distinct() => Mode::Rows,
        Goal::Satisfy => Mode::All,
        Goal::Minimize(_) | Goal::Maximize(_) => Mode::Best,
    }
}

/// A book of a model.
pub(crate) fn begin(alloc: Global, model: &Arc<Model>, mode: Mode) -> Result<Book, AllocError>
    requires { IsModeOf (arc_value model.now).goal mode }
    ensures opened { IfOk result (λ b. b.book ≡ opening (arc_value model.now) mode) }
    ensures whole { IfOk result (λ b. b.gone ≡ 0) }
{
    match Book::begin(alloc, model.clone()?, mode) {
        Ok(book) => Ok(book),
        Err(_) => Err(AllocError),
    }
}

/// How many recorded solutions are enough; where a best one is sought, no number is.
pub(crate) fn enough_for(goal: &Goal, options: &Options) -> Option<u32>
    ensures { result ≡ enough_for goal.now options.now }
{
    match goal {
        Goal::Satisfy => wanted(options),
        Goal::Minimize(_) | Goal::Maximize(_) => None,
    }
}

/// How many solutions are asked for, none where it is all of them.
pub fn wanted(options: &Options) -> Option<u32>
    ensures { result ≡ runs.wanted options.now }
{
    match options.limit() {
        Some(0) => None,
        Some(limit) => Some(limit),
        None if options.all() => None,
        None => Some(1),
    }
}

/// Whether all better ones are shown on the way to a best one: where `-a` asks for them, and never of a generated model.
fn shows_all(options: &Options) -> bool
    ensures { result ≡ searched.shows_all options.now.generate options.now.all }
{
    options.all() && options.generate().is_none()
}

/// Whether each that the book records is shown: all that are found, and on the way to a best one where all better ones are to be.
pub(crate) fn shows_found(goal: &Goal, options: &Options) -> bool
    ensures { result ≡ searched.shows_found goal.now options.now }
{
    match goal {
        Goal::Satisfy => true,
        Goal::Minimize(_) | Goal::Maximize(_) => shows_all(options),
    }
}

/// How many are shown of a search that has ended, where each that its book recorded is shown, and whether they are all.
pub fn tally_of(book: &Book, options: &Options) -> Tally
    requires searched { IsSearched book.now.book.model
        (mode_for book.now.book.model.goal options.now)
        (enough_for book.now.book.model.goal options.now) book.now.book }
    requires shows { searched.shows_found book.now.book.model.goal options.now ≡ true }
    ensures shown { IsShown book.now.book.model.goal options.now book.now.book.model
        (first_shown options.now book.now.book) result.complete }
    ensures count { length (first_shown options.now book.now.book) ≡ result.count }
{
    let wanted = enough_for(book.model().goal(), options);
    tally_among(book.recorded_count(), wanted)
}

/// As many as are wanted, where that many are recorded, or all.
fn tally_among(recorded: usize, wanted: Option<u32>) -> Tally
    ensures { IsTally wanted recorded result.count result.complete }
{
    match wanted {
        Some(wanted) if wanted as usize <= recorded => Tally {
            count: wanted as usize,
            complete: false,
        },
        _ => Tally {
            count: recorded,
            complete: true,
        },
    }
}

/// What is shown of a search that has ended, and whose book has let go of nothing.
pub fn listing_of<'a>(book: &'a Book, options: &Options) -> Listing<'a>
    requires searched { IsSearched book.now.book.model
        (mode_for book.now.book.model.goal options.now)
        (enough_for book.now.book.model.goal options.now) book.now.book }
    requires whole { book.now.gone ≡ 0 }
    ensures { IsShown book.now.book.model.goal options.now book.now.book.model
        result.found.now result.complete }
{
    match book.model().goal() {
        Goal::Satisfy => solutions_of(book, options),
        Goal::Minimize(_) => best_of(book, shows_all(options)),
        Goal::Maximize(_) => best_of(book, shows_all(options)),
    }
}

/// The solutions that were asked for.
fn solutions_of<'a>(book: &'a Book, options: &Options) -> Listing<'a>
    requires searched { IsSearched book.now.book.model (mode_of options.now.distinct)
        (runs.wanted options.now) book.now.book }
    requires whole { book.now.gone ≡ 0 }
    ensures { IsListing options.now.distinct book.now.book.model (runs.wanted options.now)
        result.found.now result.complete }
{
    let found = book.recorded();
    match wanted(options) {
        Some(count) if count as usize <= found.len() => Listing {
            found: &found[..count as usize],
            complete: false,
        },
        _ => Listing {
            found,
            complete: true,
        },
    }
}

/// A best solution, and where all are to be shown the ones before it.
fn best_of(book: &Book, all: bool) -> Listing<'_>
    requires searched { IsSearched book.now.book.model modes.Best None book.now.book }
    requires whole { book.now.gone ≡ 0 }
    ensures best { AreBest all book.now.book.model result.found.now }
    ensures complete { result.complete ≡ true }
{
    let found = book.recorded();
    if all {
        return Listing {
            found,
            complete: true,
        };
    }
    Listing {
        found: last_of(found),
        complete: true,
    }
}

/// The last of a list alone; of an empty list nothing.
fn last_of(found: &[Assignment]) -> &[Assignment]
    ensures { result.now ≡ drop (length found.now - 1) found.now }
{
    &found[found.len().saturating_sub(1)..]
}

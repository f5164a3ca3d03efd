//! Printing, a piece at a time.
ghost use Rattle.std.specs.Prelude.{ℤ, List, length, ◌≡◌, ◌≢◌, ◌<◌, ◌^◌, ◌-◌, ◌++◌, OnOk, OnErr, IfErr, MatchResult};
ghost use Rattle.std.specs.List.{AllByRecursion};
ghost use Rattle.fz_spec.specs.Instance.{AreDeclared};
ghost use Rattle.fz_spec.specs.Run.{block, blocks, closing};
ghost use Rattle.fz_io.specs.Outside.{with_more};
ghost use Rattle.fz_print.specs.Refusal.{text_of};
ghost use Rattle.fz_print.specs.Ending.{statistics_text};
ghost use Rattle.fz_runs.specs.Runs.{counted, summary_of};
ghost use Rattle.fz_printer.specs.Texts.{TakesFront, HasStopCause, closing_after, count_if, end_text, ending_after, best_text, listing_text, run_text, shown_text};

use fz_cmd::Options;
use fz_io::outside::Sink;
use fz_io::whole::put_all;
use fz_model::assignment::{Assignment, value_of};
use fz_model::model::Model;
use fz_print::block::block;
use fz_print::ending::Ending;
use fz_print::refusal::Refusal;
use fz_print::trailer::{refusal, summary, trailer};
use fz_spec::goal::Goal;
use fz_spec::term::Term;
use std::alloc::Global;

/// Why printing stopped.
#[derive(Clone, Copy, Debug, PartialEq, Eq)]
pub enum Stop {
    Memory,
    Fault,
}

/// Prints what is shown of a search, and after it the statistics where they are asked for.
pub fn print_run<S: Sink>(
    alloc: Global,
    sink: &mut S,
    model: &Model,
    options: &Options,
    found: &[Assignment],
    complete: bool,
) -> Result<(), Stop>
    requires faults { S.faults sink.old < 2 ^ 64 - 1 }
    requires declared { AllByRecursion (AreDeclared model.now.variables) found.now }
    ensures taken { OnOk result (S.taken sink.new ≡ with_more (S.taken sink.old)
        (run_text options.now model.now found.now complete)) }
    ensures front { OnErr result
        (TakesFront (run_text options.now model.now found.now complete)
        (S.taken sink.old) (S.taken sink.new)) }
    ensures cause { HasStopCause (S.faults sink.old) (S.faults sink.new) result }
{
    print_shown(alloc, sink, model, options.generate(), found, complete)?;
    put_statistics(alloc, sink, options.stats(), found.len() as u64)
}

/// Prints what stands after the blocks of all that is listed, which are that many: the closing line where there is one, and the
/// statistics where they are asked for.
pub fn print_end<S: Sink>(
    alloc: Global,
    sink: &mut S,
    options: &Options,
    count: u64,
    complete: bool,
) -> Result<(), Stop>
    requires { S.faults sink.old < 2 ^ 64 - 1 }
    ensures taken { (listed : List (List ℤ)) → length listed ≡ count → OnOk result
        (S.taken sink.new
        ≡ with_more (S.taken sink.old) (end_text options.now listed complete)) }
    ensures front { (listed : List (List ℤ)) → length listed ≡ count → OnErr result
        (TakesFront (end_text options.now listed complete)
        (S.taken sink.old) (S.taken sink.new)) }
    ensures cause { HasStopCause (S.faults sink.old) (S.faults sink.new) result }
{
    put_ending(alloc, sink, count, complete)?;
    put_statistics(alloc, sink, options.stats(), count)
}

/// Prints what is shown of a search, by the goal.
fn print_shown<S: Sink>(
    alloc: Global,
    sink: &mut S,
    model: &Model,
    generate: Option<u32>,
    found: &[Assignment],
    complete: bool,
) -> Result<(), Stop>
    requires faults { S.faults sink.old < 2 ^ 64 - 1 }
    requires declared { AllByRecursion (AreDeclared model.now.variables) found.now }
    ensures taken { OnOk result (S.taken sink.new ≡ with_more (S.taken sink.old)
        (shown_text model.now.goal generate model.now found.now complete)) }
    ensures front { OnErr result
        (TakesFront (shown_text model.now.goal generate model.now found.now complete)
        (S.taken sink.old) (S.taken sink.new)) }
    ensures cause { HasStopCause (S.faults sink.old) (S.faults sink.new) result }
{
    match model.goal() {
        Goal::Satisfy => print_listing(alloc, sink, model, found, complete),
        Goal::Minimize(goal) => print_best(alloc, sink, model, generate, *goal, found, complete),
        Goal::Maximize(goal) => print_best(alloc, sink, model, generate, *goal, found, complete),
    }
}

/// Prints a best solution: its block, or of a generated model the line that sums it up.
fn print_best<S: Sink>(
    alloc: Global,
    sink: &mut S,
    model: &Model,
    generate: Option<u32>,
    goal: Term,
    found: &[Assignment],
    complete: bool,
) -> Result<(), Stop>
    requires faults { S.faults sink.old < 2 ^ 64 - 1 }
    requires declared { AllByRecursion (AreDeclared model.now.variables) found.now }
    ensures taken { OnOk result (S.taken sink.new ≡ with_more (S.taken sink.old)
        (best_text generate goal model.now found.now complete)) }
    ensures front { OnErr result
        (TakesFront (best_text generate goal model.now found.now complete)
        (S.taken sink.old) (S.taken sink.new)) }
    ensures cause { HasStopCause (S.faults sink.old) (S.faults sink.new) result }
{
    match generate {
        Some(items) => put_summary(alloc, sink, items, goal, found),
        None => print_listing(alloc, sink, model, found, complete),
    }
}

/// Prints the value of the first of a list, or that there is none.
fn put_summary<S: Sink>(
    alloc: Global,
    sink: &mut S,
    items: u32,
    goal: Term,
    found: &[Assignment],
) -> Result<(), Stop>
    requires { S.faults sink.old < 2 ^ 64 - 1 }
    ensures taken { OnOk result
        (S.taken sink.new ≡ with_more (S.taken sink.old) (summary_of items goal found.now)) }
    ensures front { OnErr result
        (TakesFront (summary_of items goal found.now) (S.taken sink.old) (S.taken sink.new)) }
    ensures cause { HasStopCause (S.faults sink.old) (S.faults sink.new) result }
{
    let Some(best) = found.first() else {
        return put_closing(alloc, sink, 0);
    };
    match summary(alloc, items, value_of(goal, best.values())) {
        Ok(text) => put(sink, &text),
        Err(_) => Err(Stop::Memory),
    }
}

/// Prints how many solutions there are, where statistics are asked for.
fn put_statistics<S: Sink>(alloc: Global, sink: &mut S, asked: bool, count: u64) -> Result<(), Stop>
    requires { S.faults sink.old < 2 ^ 64 - 1 }
    ensures taken { OnOk result (S.taken sink.new
        ≡ with_more (S.taken sink.old) (statistics_text (count_if asked count))) }
    ensures front { OnErr result (TakesFront (statistics_text (count_if asked count))
        (S.taken sink.old) (S.taken sink.new)) }
    ensures cause { HasStopCause (S.faults sink.old) (S.faults sink.new) result }
{
    if !asked {
        return Ok(());
    }
    match trailer(alloc, Ending::Plain, Some(count)) {
        Ok(text) => put(sink, &text),
        Err(_) => Err(Stop::Memory),
    }
}

/// Prints a block for each solution, and the closing line where they are all.
fn print_listing<S: Sink>(
    alloc: Global,
    sink: &mut S,
    model: &Model,
    found: &[Assignment],
    complete: bool,
) -> Result<(), Stop>
    requires faults { S.faults sink.old < 2 ^ 64 - 1 }
    requires declared { AllByRecursion (AreDeclared model.now.variables) found.now }
    ensures taken { OnOk result (S.taken sink.new ≡ with_more (S.taken sink.old)
        (listing_text model.now found.now complete)) }
    ensures front { OnErr result
        (TakesFront (listing_text model.now found.now complete)
        (S.taken sink.old) (S.taken sink.new)) }
    ensures cause { HasStopCause (S.faults sink.old) (S.faults sink.new) result }
{
    print_blocks(alloc, sink, model, found)?;
    put_ending(alloc, sink, found.len() as u64, complete)
}

/// Prints the closing line after that many solutions, where there is one.
fn put_ending<S: Sink>(alloc: Global, sink: &mut S, count: u64, complete: bool) -> Result<(), Stop>
    requires { S.faults sink.old < 2 ^ 64 - 1 }
    ensures taken { OnOk result
        (S.taken sink.new ≡ with_more (S.taken sink.old) (ending_after complete count)) }
    ensures front { OnErr result
        (TakesFront (ending_after complete count) (S.taken sink.old) (S.taken sink.new)) }
    ensures cause { HasStopCause (S.faults sink.old) (S.faults sink.new) result }
{
    if complete {
        put_closing(alloc, sink, count)
    } else {
        Ok(())
    }
}

/// Prints a block for each solution.
pub fn print_blocks<S: Sink>(
    alloc: Global,
    sink: &mut S,
    model: &Model,
    found: &[Assignment],
) -> Result<(), Stop>
    requires faults { S.faults sink.old < 2 ^ 64 - 1 }
    requires declared { AllByRecursion (AreDeclared model.now.variables) found.now }
    ensures taken { OnOk result
        (S.taken sink.new ≡ with_more (S.taken sink.old) (blocks model.now found.now)) }
    ensures front { OnErr result
        (TakesFront (blocks model.now found.now) (S.taken sink.old) (S.taken sink.new)) }
    ensures cause { HasStopCause (S.faults sink.old) (S.faults sink.new) result }
{
    for assignment in found {
        put_block(alloc, sink, model, assignment)?;
    }
    Ok(())
}

fn put_block<S: Sink>(
    alloc: Global,
    sink: &mut S,
    model: &Model,
    assignment: &Assignment,
) -> Result<(), Stop>
    requires faults { S.faults sink.old < 2 ^ 64 - 1 }
    requires declared { AreDeclared model.now.variables assignment.now }
    ensures taken { OnOk result
        (S.taken sink.new ≡ with_more (S.taken sink.old) (block model.now assignment.now)) }
    ensures front { OnErr result
        (TakesFront (block model.now assignment.now) (S.taken sink.old) (S.taken sink.new)) }
    ensures cause { HasStopCause (S.faults sink.old) (S.faults sink.new) result }
{
    match block(alloc, model, assignment) {
        Ok(text) => put(sink, &text),
        Err(_) => Err(Stop::Memory),
    }
}

fn put_closing<S: Sink>(alloc: Global, sink: &mut S, count: u64) -> Result<(), Stop>
    requires { S.faults sink.old < 2 ^ 64 - 1 }
    ensures taken { OnOk result
        (S.taken sink.new ≡ with_more (S.taken sink.old) (closing_after count)) }
    ensures front { OnErr result
        (TakesFront (closing_after count) (S.taken sink.old) (S.taken sink.new)) }
    ensures cause { HasStopCause (S.faults sink.old) (S.faults sink.new) result }
{
    let ending = if count == 0 {
        Ending::Unsatisfiable
    } else {
        Ending::Complete
    };
    match trailer(alloc, ending, None) {
        Ok(text) => put(sink, &text),
        Err(_) => Err(Stop::Memory),
    }
}

/// Prints the two lines of a refusal.
pub fn print_refusal<S: Sink>(alloc: Global, sink: &mut S, refused: &Refusal) -> Result<(), Stop>
    requires { S.faults sink.old < 2 ^ 64 - 1 }
    ensures taken { OnOk result
        (S.taken sink.new ≡ with_more (S.taken sink.old) (text_of refused.now)) }
    ensures front { OnErr result
        (TakesFront (text_of refused.now) (S.taken sink.old) (S.taken sink.new)) }
    ensures cause { HasStopCause (S.faults sink.old) (S.faults sink.new) result }
{
    match refusal(alloc, refused) {
        Ok(text) => put(sink, &text),
        Err(_) => Err(Stop::Memory),
    }
}

/// Prints one piece.
pub fn put<S: Sink>(sink: &mut S, piece: &[u8]) -> Result<(), Stop>
    requires { S.faults sink.old < 2 ^ 64 - 1 }
    ensures taken { OnOk result (S.taken sink.new ≡ with_more (S.taken sink.old) piece.now) }
    ensures front { OnErr result (TakesFront piece.now (S.taken sink.old) (S.taken sink.new)) }
    ensures cause { HasStopCause (S.faults sink.old) (S.faults sink.new) result }
    ensures no_memory { result ≢ Err Stop.Memory }
{
    match put_all(sink, piece) {
        Ok(()) => Ok(()),
        Err(_) => Err(Stop::Fault),
    }
}

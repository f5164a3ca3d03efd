//! The run of a part of a model.
ghost use Rattle.std.specs.Prelude.{◌≡◌, ◌<◌, ◌^◌, ◌-◌, ◌↔◌, ℕ, List, Option, Some, true, false, IsTrue, IfSome, IfOk, IfErr, OnOk, OnErr};
ghost use Rattle.std.specs.Arc.{arc_value};
ghost use Rattle.fz_sets.specs.Sets.{IsWithinLimits};
ghost use Rattle.fz_cmd.specs.Meaning.{ArePlain};
ghost use Rattle.fz_maker.specs.Taken.{TakesOne, TakesFrontOfOne};
ghost use Rattle.fz_printer.specs.Printed.{as_found_of, book_of, HasPrinted};
ghost use Rattle.fz_printer.specs.Texts.{HasStopCause};
ghost use Rattle.fzn.specs.Asked.{LacksTask, SuitsGoal};
ghost use Rattle.fzn.specs.Promises.{IsFlushed};
ghost use Rattle.fzn.specs.Steps.{HasEndedWith, HasSearched, HasSinkCause, IsEnded, IsPartText, IsTaskOf, IsTaskText, PrintsModel};

use crate::frame::{put_end, put_line};
use crate::status::{Misfit, Status};
use crate::steps::{finish, searched};
use fz_cmd::Options;
use fz_io::outside::Sink;
use fz_model::model::Model;
use fz_part::{Part, task_of};
use fz_printer::{Printer, Stop, print_blocks};
use fz_search::{Tally, listing_of, tally_of};
use fz_spec::goal::Goal;
use std::alloc::{AllocError, Global};
use std::sync::Arc;

/// A part, and the model that is searched for it.
#[derive(Drop)]
pub(crate) struct Task {
    pub part: Part,
    pub model: Model,
}

/// Searches the part of a model that has this text, and prints what is asked for.
pub(crate) fn run_part<F: Fn(Arc<Model>, &mut S) -> Result<Printer, AllocError>, S: Sink>(
    alloc: Global,
    search_by: &F,
    model: Model,
    text: &[u8],
    options: &Options,
    sink: &mut S,
) -> Status
    requires callable { (m : _) (s : _) → S.faults s.now < 2 ^ 64 - 1 → F.pre search_by.now m s }
    requires searches { (m : _) (s : _) (r : _) (t : _) → F.post search_by.now m s r t
        → HasSearched (arc_value m) options.now r
        (S.taken s.now) (S.taken t.now) (S.faults s.now) (S.faults t.now) }
    requires asked { options.now.part ≡ Some text.now }
    requires faults { S.faults sink.old < 2 ^ 64 - 1 }
    ensures printed { PrintsModel result model options.now (S.taken sink.old) (S.taken sink.new) }
    ensures flushed { IsFlushed result (S.taken sink.old) (S.taken sink.new) (S.flushed sink.new) }
    ensures cause { HasSinkCause result (S.faults sink.old) (S.faults sink.new) }
{
    match task_for(alloc, model, text, options.better()) {
        Ok(Ok(task)) => {
            let printed = print_task(alloc, search_by, task, options, sink);
            finish(printed, sink)
        }
        Ok(Err(misfit)) => Status::NoTask(misfit),
        Err(_) => Status::NoMemory,
    }
}

/// The task that a text and a value to be bettered give of a model, which is let go.
fn task_for(
    alloc: Global,
    model: Model,
    text: &[u8],
    better: Option<i32>,
) -> Result<Result<Task, Misfit>, AllocError>
    requires { IfSome better IsWithinLimits }
    ensures task { IfOk result (λ found. IfOk found (IsTaskOf model text.now better)) }
    ensures misfit { IfOk result (λ found. IfErr found
        (λ misfit. LacksTask misfit model text.now better)) }
{
    task_in(alloc, &model, text, better)
}

fn task_in(
    alloc: Global,
    model: &Model,
    text: &[u8],
    better: Option<i32>,
) -> Result<Result<Task, Misfit>, AllocError>
    requires { IfSome better IsWithinLimits }
    ensures task { IfOk result (λ found. IfOk found (IsTaskOf model.now text.now better)) }
    ensures misfit { IfOk result (λ found. IfErr found
        (λ misfit. LacksTask misfit model.now text.now better)) }
{
    let part = match Part::parse(alloc, model, text)? {
        Ok(part) => part,
        Err(refusal) => return Ok(Err(Misfit::NoPart(refusal))),
    };
    if !suits_goal(better, model.goal()) {
        return Ok(Err(Misfit::NoGoal));
    }
    match task_of(alloc, model, &part, better)? {
        Some(model) => {
            let _ = model.goal();
            Ok(Ok(Task { part, model }))
        }
        None => Ok(Err(Misfit::TooMany)),
    }
}

/// Whether there is a goal, where something better than a value is sought.
fn suits_goal(better: Option<i32>, goal: &Goal) -> bool
    ensures { IsTrue result ↔ SuitsGoal better goal.now }
{
    match goal {
        Goal::Satisfy => better.is_none(),
        Goal::Minimize(_) | Goal::Maximize(_) => true,
    }
}

/// Prints the run of a task: its line, what is found, and the ending.
fn print_task<F: Fn(Arc<Model>, &mut S) -> Result<Printer, AllocError>, S: Sink>(
    alloc: Global,
    search_by: &F,
    task: Task,
    options: &Options,
    sink: &mut S,
) -> Result<(), Stop>
    requires callable { (m : _) (s : _) → S.faults s.now < 2 ^ 64 - 1 → F.pre search_by.now m s }
    requires searches { (m : _) (s : _) (r : _) (t : _) → F.post search_by.now m s r t
        → HasSearched (arc_value m) options.now r
        (S.taken s.now) (S.taken t.now) (S.faults s.now) (S.faults t.now) }
    requires plain { ArePlain options.now }
    requires faults { S.faults sink.old < 2 ^ 64 - 1 }
    ensures whole { OnOk result (TakesOne (IsPartText task.part task.model options.now)
        (S.taken sink.old) (S.taken sink.new)) }
    ensures front { OnErr result (TakesFrontOfOne (IsPartText task.part task.model options.now)
        (S.taken sink.old) (S.taken sink.new)) }
    ensures cause { HasStopCause (S.faults sink.old) (S.faults sink.new) result }
{
    put_line(alloc, sink, &task.part, options.better())?;
    print_found(alloc, search_by, task.model, options, sink)
}

/// Prints what is found of a task, and the ending.
fn print_found<F: Fn(Arc<Model>, &mut S) -> Result<Printer, AllocError>, S: Sink>(
    alloc: Global,
    search_by: &F,
    model: Model,
    options: &Options,
    sink: &mut S,
) -> Result<(), Stop>
    requires callable { (m : _) (s : _) → S.faults s.now < 2 ^ 64 - 1 → F.pre search_by.now m s }
    requires searches { (m : _) (s : _) (r : _) (t : _) → F.post search_by.now m s r t
        → HasSearched (arc_value m) options.now r
        (S.taken s.now) (S.taken t.now) (S.faults s.now) (S.faults t.now) }
    requires plain { ArePlain options.now }
    requires faults { S.faults sink.old < 2 ^ 64 - 1 }
    ensures whole { OnOk result (TakesOne (IsTaskText model options.now)
        (S.taken sink.old) (S.taken sink.new)) }
    ensures front { OnErr result (TakesFrontOfOne (IsTaskText model options.now)
        (S.taken sink.old) (S.taken sink.new)) }
    ensures cause { HasStopCause (S.faults sink.old) (S.faults sink.new) result }
{
    let printer = search_task(alloc, search_by, model, options, sink)?;
    if printer.as_found() {
        end_found(alloc, &printer, options, sink)
    } else {
        end_all(alloc, &printer, options, sink)
    }
}

/// The printer of a task's search that has ended, or why it stopped.
fn search_task<F: Fn(Arc<Model>, &mut S) -> Result<Printer, AllocError>, S: Sink>(
    alloc: Global,
    search_by: &F,
    model: Model,
    options: &Options,
    sink: &mut S,
) -> Result<Printer, Stop>
    requires callable { (m : _) (s : _) → S.faults s.now < 2 ^ 64 - 1 → F.pre search_by.now m s }
    requires searches { (m : _) (s : _) (r : _) (t : _) → F.post search_by.now m s r t
        → HasSearched (arc_value m) options.now r
        (S.taken s.now) (S.taken t.now) (S.faults s.now) (S.faults t.now) }
    requires plain { ArePlain options.now }
    requires faults { S.faults sink.old < 2 ^ 64 - 1 }
    ensures ended { IfOk result
        (HasEndedWith model options.now (S.taken sink.old) (S.taken sink.new)) }
    ensures front { OnErr result (TakesFrontOfOne (IsTaskText model options.now)
        (S.taken sink.old) (S.taken sink.new)) }
    ensures cause { HasStopCause (S.faults sink.old) (S.faults sink.new) result }
{
    let Ok(printer) = searched(alloc, search_by, model, options, sink) else {
        return Err(Stop::Memory);
    };
    match printer.stopped() {
        Some(stop) => Err(stop),
        None => Ok(printer),
    }
}

/// Prints what stands after the blocks where these were printed as they were found.
fn end_found<S: Sink>(
    alloc: Global,
    printer: &Printer,
    options: &Options,
    sink: &mut S,
) -> Result<(), Stop>
    requires ended { IsEnded options.now printer.now }
    requires found { as_found_of printer.now ≡ true }
    requires plain { ArePlain options.now }
    requires faults { S.faults sink.old < 2 ^ 64 - 1 }
    ensures whole { (before : Option (List ℕ)) → HasPrinted printer.now before (S.taken sink.old)
        → OnOk result (TakesOne (IsTaskText (book_of printer.now).model options.now)
        before (S.taken sink.new)) }
    ensures front { (before : Option (List ℕ)) → HasPrinted printer.now before (S.taken sink.old)
        → OnErr result (TakesFrontOfOne (IsTaskText (book_of printer.now).model options.now)
        before (S.taken sink.new)) }
    ensures cause { HasStopCause (S.faults sink.old) (S.faults sink.new) result }
{
    let book = printer.book();
    let model = book.model();
    let tally = tally_of(book, options);
    put_end(alloc, sink, model.goal(), tally, book.incumbent())
}

/// Prints the blocks, and what stands after them.
fn end_all<S: Sink>(
    alloc: Global,
    printer: &Printer,
    options: &Options,
    sink: &mut S,
) -> Result<(), Stop>
    requires ended { IsEnded options.now printer.now }
    requires unfound { as_found_of printer.now ≡ false }
    requires plain { ArePlain options.now }
    requires faults { S.faults sink.old < 2 ^ 64 - 1 }
    ensures whole { (before : Option (List ℕ)) → HasPrinted printer.now before (S.taken sink.old)
        → OnOk result (TakesOne (IsTaskText (book_of printer.now).model options.now)
        before (S.taken sink.new)) }
    ensures front { (before : Option (List ℕ)) → HasPrinted printer.now before (S.taken sink.old)
        → OnErr result (TakesFrontOfOne (IsTaskText (book_of printer.now).model options.now)
        before (S.taken sink.new)) }
    ensures cause { HasStopCause (S.faults sink.old) (S.faults sink.new) result }
{
    let book = printer.book();
    let model = book.model();
    let listing = listing_of(book, options);
    let found = listing.found;
    let tally = Tally {
        count: found.len(),
        complete: listing.complete,
    };
    print_blocks(alloc, sink, model, found)?;
    put_end(alloc, sink, model.goal(), tally, found.last())
}

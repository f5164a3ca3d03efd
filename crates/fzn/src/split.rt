//! The split of a model into parts, a line for each.
ghost use Rattle.std.specs.Prelude.{◌≡◌, ◌≤◌, ◌<◌, ◌^◌, ◌-◌, IfOk, OnOk, OnErr};
ghost use Rattle.fz_io.specs.Outside.{with_more};
ghost use Rattle.fz_printer.specs.Texts.{TakesFront, HasStopCause};
ghost use Rattle.fz_split.specs.Splits.{IsSplit};
ghost use Rattle.fzn.specs.Asked.{split_line, split_text};
ghost use Rattle.fzn.specs.Promises.{IsFlushed};
ghost use Rattle.fzn.specs.Steps.{AskForSplit, HasSinkCause, PrintsModel};

use crate::status::Status;
use crate::steps::finish;
use fz_branch::Plan;
use fz_cmd::Options;
use fz_io::outside::Sink;
use fz_model::model::Model;
use fz_part::Part;
use fz_printer::{Stop, put};
use fz_search_space::SearchSpace;
use fz_space::Space;
use fz_split::split;
use std::alloc::{AllocError, Global};
use std::sync::Arc;

/// Prints at most so many parts of a model.
pub(crate) fn run_split<S: Sink>(
    alloc: Global,
    model: Model,
    most: u32,
    options: &Options,
    sink: &mut S,
) -> Status
    requires asked { AskForSplit most options.now }
    requires some { 1 ≤ most }
    requires faults { S.faults sink.old < 2 ^ 64 - 1 }
    ensures printed { PrintsModel result model options.now (S.taken sink.old) (S.taken sink.new) }
    ensures flushed { IsFlushed result (S.taken sink.old) (S.taken sink.new) (S.flushed sink.new) }
    ensures cause { HasSinkCause result (S.faults sink.old) (S.faults sink.new) }
{
    let _ = options;
    let Ok(parts) = parts_of(alloc, model, most as usize) else {
        return Status::NoMemory;
    };
    let printed = print_parts(alloc, sink, &parts);
    finish(printed, sink)
}

/// At most so many parts of a model, by the plan of the model itself.
fn parts_of(alloc: Global, model: Model, most: usize) -> Result<Vec<Part>, AllocError>
    requires { 1 ≤ most }
    ensures { IfOk result (λ parts. IsSplit model most parts.items) }
{
    let plan = Plan::of(alloc, &model)?;
    let Ok(model) = Arc::new(alloc, model) else {
        return Err(AllocError);
    };
    let root = Space::root(alloc, model)?;
    split(alloc, &root, &plan, most)
}

/// Prints a line for each part.
fn print_parts<S: Sink>(alloc: Global, sink: &mut S, parts: &[Part]) -> Result<(), Stop>
    requires { S.faults sink.old < 2 ^ 64 - 1 }
    ensures taken { OnOk result
        (S.taken sink.new ≡ with_more (S.taken sink.old) (split_text parts.now)) }
    ensures front { OnErr result
        (TakesFront (split_text parts.now) (S.taken sink.old) (S.taken sink.new)) }
    ensures cause { HasStopCause (S.faults sink.old) (S.faults sink.new) result }
{
    for part in parts {
        put_part(alloc, sink, part)?;
    }
    Ok(())
}

fn put_part<S: Sink>(alloc: Global, sink: &mut S, part: &Part) -> Result<(), Stop>
    requires { S.faults sink.old < 2 ^ 64 - 1 }
    ensures taken { OnOk result
        (S.taken sink.new ≡ with_more (S.taken sink.old) (split_line part.now)) }
    ensures front { OnErr result
        (TakesFront (split_line part.now) (S.taken sink.old) (S.taken sink.new)) }
    ensures cause { HasStopCause (S.faults sink.old) (S.faults sink.new) result }
{
    match line_of(alloc, part) {
        Ok(line) => put(sink, &line),
        Err(_) => Err(Stop::Memory),
    }
}

fn line_of(alloc: Global, part: &Part) -> Result<Vec<u8>, AllocError>
    ensures { IfOk result (λ line. line.items ≡ split_line part.now) }
{
    let mut line = Vec::new(alloc);
    part.print(&mut line)?;
    line.push(b'\n')?;
    Ok(line)
}

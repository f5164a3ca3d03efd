//! The search of a model by several workers in threads.
ghost use Rattle.std.specs.Prelude.{◌≡◌, ◌-◌, ◌<◌, ◌≤◌, ◌^◌, ◌⊎◌, [], None, IfOk, OnErr, vec_len};
ghost use Rattle.std.specs.Arc.{arc_value};
ghost use Rattle.fz_printer.specs.Printed.{book_of, stopped_of, CountsMark, IsReady};
ghost use Rattle.fz_printer.specs.Gathered.{Gathers, IsFilled};
ghost use Rattle.fz_runs.specs.Modes.{mode_for};
ghost use Rattle.fz_collect.specs.Subjects.{IsBookOf};
ghost use Rattle.fz_path.specs.Paths.{bare, idle_path};
ghost use Rattle.fz_search.specs.Searched.{AreWorkers, IsOfModel, IsPrinted};

use crate::assets::search_by_assets;
use crate::searching::{begin, enough_for, mode_for, shows_found};
use fz_cmd::Options;
use fz_collect::{Outbox, Subject, gather};
use fz_io::gate::Gate;
use fz_io::outside::Sink;
use fz_model::model::Model;
use fz_path::Path;
use fz_printer::Printer;
use fz_search_space::SearchSpace;
use fz_solo::stream;
use fz_team::{OwnBook, OwnPath, run_own};
use std::alloc::{AllocError, Global};
use std::marker::Brand;
use std::sync::{Arc, Wait};
use std::thread::{Threads, join_mut};

/// Searches a model as `search` does, by as many workers as are asked for, each in a thread of its own where one can be made, and
/// prints solutions as they are found, where each that is found is shown. What the printer wasn't told of, if anything, one worker
/// searches at the end. Workers of several assets print nothing on the way.
///
/// # Errors
/// `AllocError` where there is no memory to begin with; nothing is printed.
pub fn search_in_threads<
    T: Threads + Wait + Sync,
    S: SearchSpace + Send + Sync,
    K: Sink + Send,
    G: Gate + Sync,
>(
    rt: &T,
    alloc: Global,
    model: &Arc<Model>,
    options: &Options,
    sink: &mut K,
    gate: &G,
) -> Result<Printer, AllocError>
    requires accepts { S.accepts (arc_value model.now) }
    requires faults { K.faults sink.old < 2 ^ 64 - 1 }
    ensures printed { IfOk result (λ p. IsPrinted (arc_value model.now) options.now p
        (K.taken sink.old) (K.taken sink.new)) }
    ensures cause { IfOk result
        (λ p. CountsMark (K.faults sink.old) (K.faults sink.new) (stopped_of p)) }
    ensures untaken { OnErr result (K.taken sink.new ≡ K.taken sink.old) }
    ensures no_fault { OnErr result (K.faults sink.new ≡ K.faults sink.old) }
{
    if options.assets() > 1 {
        return search_by_assets::<T, S, K, G>(rt, alloc, model, options, sink, gate);
    }
    let distance = options.commit_distance();
    let mode = mode_for(model.goal(), options);
    let book = begin(alloc, model, mode)?;
    let adaptive = options.adaptive_distance();
    let mut path: Path<S> = Path::idle(alloc, model.clone()?, mode, distance, adaptive)?;
    let wanted = enough_for(model.goal(), options);
    let mut printer = Printer::new(book, shows_found(model.goal(), options), wanted);
    search_all::<T, S, K, G>(
        rt,
        alloc,
        model,
        options,
        &mut printer,
        &mut path,
        sink,
        gate,
    );
    let _ = printer.book().model();
    Ok(printer)
}

/// Several workers search, and one after them what the printer wasn't told of.
fn search_all<
    T: Threads + Wait + Sync,
    S: SearchSpace + Send + Sync,
    K: Sink + Send,
    G: Gate + Sync,
>(
    rt: &T,
    alloc: Global,
    model: &Arc<Model>,
    options: &Options,
    printer: &mut Printer,
    path: &mut Path<S>,
    sink: &mut K,
    gate: &G,
)
    requires working { stopped_of printer.old ≡ None }
    requires ready { IsReady printer.old }
    requires faults { K.faults sink.old < 2 ^ 64 - 1 }
    requires idle { bare path.old
        ≡ idle_path (arc_value model.now) (mode_for (arc_value model.now).goal options.now)
        options.now.commit_distance options.now.adaptive_distance }
    requires own { IsBookOf (arc_value model.now)
        (mode_for (arc_value model.now).goal options.now) (book_of printer.old) }
    ensures gathers { Gathers printer.old (K.taken sink.old) (K.faults sink.old)
        printer.new (K.taken sink.new) (K.faults sink.new) }
    ensures ended { stopped_of printer.new ≡ None
        → IsFilled printer.new ⊎ ((book_of printer.new).parts ≡ []) }
{
    search_together::<T, S, K, G, Brand>(rt, alloc, model, options, printer, path, sink, gate);
    if printer.stopped().is_some() {
        return;
    }
    stream(alloc, printer, path, sink);
}

/// The workers search, and what they tell is printed in the meantime; where no more thread can be made, after it.
fn search_together<
    T: Threads + Wait + Sync,
    S: SearchSpace + Send + Sync,
    K: Sink + Send,
    G: Gate + Sync,
    B: Subject + Send + Sync,
>(
    rt: &T,
    alloc: Global,
    model: &Arc<Model>,
    options: &Options,
    printer: &mut Printer,
    path: &Path<S>,
    sink: &mut K,
    gate: &G,
)
    requires working { stopped_of printer.old ≡ None }
    requires ready { IsReady printer.old }
    requires faults { K.faults sink.old < 2 ^ 64 - 1 }
    requires subject { IsOfModel B.model B.mode (arc_value model.now) options.now }
    requires idle { bare path.now ≡ idle_path
        B.model B.mode options.now.commit_distance options.now.adaptive_distance }
    requires own { IsBookOf B.model B.mode (book_of printer.old) }
    ensures { Gathers printer.old (K.taken sink.old) (K.faults sink.old)
        printer.new (K.taken sink.new) (K.faults sink.new) }
{
    let outbox: Outbox<B> = Outbox::new(alloc);
    let told = &outbox;
    join_mut(
        rt,
        &mut || gather(rt, alloc, told, printer, sink),
        &mut ||
            requires { IsOfModel B.model B.mode (arc_value model.now) options.now
                × (bare path.now ≡ idle_path B.model B.mode
                options.now.commit_distance options.now.adaptive_distance) }
        { work_through::<T, S, G, B>(rt, alloc, model, options, path, gate, told) },
    );
}

/// The workers search, and end what they tell.
fn work_through<
    T: Threads + Wait + Sync,
    S: SearchSpace + Send + Sync,
    G: Gate + Sync,
    B: Subject + Send + Sync,
>(
    rt: &T,
    alloc: Global,
    model: &Arc<Model>,
    options: &Options,
    path: &Path<S>,
    gate: &G,
    outbox: &Outbox<B>,
)
    requires subject { IsOfModel B.model B.mode (arc_value model.now) options.now }
    requires idle { bare path.now ≡ idle_path
        B.model B.mode options.now.commit_distance options.now.adaptive_distance }
{
    let _whether_there_was_memory = work::<T, S, G, B>(
        rt, alloc, model, options, path, gate, outbox,
    );
    outbox.end();
}

/// The workers search, with a book of their own.
fn work<
    T: Threads + Wait + Sync,
    S: SearchSpace + Send + Sync,
    G: Gate + Sync,
    B: Subject + Send + Sync,
>(
    rt: &T,
    alloc: Global,
    model: &Arc<Model>,
    options: &Options,
    path: &Path<S>,
    gate: &G,
    outbox: &Outbox<B>,
) -> Result<(), AllocError>
    requires subject { IsOfModel B.model B.mode (arc_value model.now) options.now }
    requires idle { bare path.now ≡ idle_path
        B.model B.mode options.now.commit_distance options.now.adaptive_distance }
{
    let mode = mode_for(model.goal(), options);
    let book = OwnBook::new(begin(alloc, model, mode)?);
    let paths = paths_of::<S, B>(alloc, path, options)?;
    let enough = enough_for(model.goal(), options);
    let _end = run_own(rt, alloc, book, paths, enough, gate, outbox);
    Ok(())
}

/// As many idle paths as workers are asked for, beside an idle one: they share what is posted, the plans and the root's space.
fn paths_of<S: SearchSpace, B: Subject>(
    alloc: Global,
    path: &Path<S>,
    options: &Options,
) -> Result<Vec<OwnPath<S, B>>, AllocError>
    requires idle { bare path.now ≡ idle_path
        B.model B.mode options.now.commit_distance options.now.adaptive_distance }
    ensures several { IfOk result (λ v. (1 ≤ vec_len v) × (vec_len v ≤ 64)) }
    ensures workers { IfOk result (λ v. AreWorkers B.model B.mode options.now v.items) }
{
    let count = options.workers();
    let mut paths = Vec::new(alloc);
    'workers: for _worker in 0..count {
        let beside = path.beside()?;
        paths.push(OwnPath::new(beside))?;
    }
    Ok(paths)
}

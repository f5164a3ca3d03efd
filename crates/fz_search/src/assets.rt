//! The search of a model by several assets: workers by plans of their own, each asset with a book.
ghost use Rattle.std.specs.Prelude.{◌≡◌, ◌↔◌, ◌-◌, ◌%◌, ◌<◌, ◌≤◌, ◌^◌, Any, IfOk, IfSome, IsTrue, OnErr, length, slice_index_or, vec_len};
ghost use Rattle.std.specs.Arc.{arc_value};
ghost use Rattle.fz_book.specs.Room.{Roomy};
ghost use Rattle.fz_printer.specs.Printed.{stopped_of, CountsMark};
ghost use Rattle.fz_runs.specs.Modes.{mode_for};
ghost use Rattle.fz_collect.specs.Subjects.{IsBookOf};
ghost use Rattle.fz_path.specs.Paths.{bare, idle_path};
ghost use Rattle.fz_search.specs.Searched.{asset_path, AreOfAssets, AreOnAssets, HasEnded, IsOfModel, IsPrinted};

use crate::searching::{begin, enough_for, mode_for};
use fz_book::{Book, has_enough};
use fz_branch::Plan;
use fz_cmd::Options;
use fz_collect::Subject;
use fz_io::gate::Gate;
use fz_io::outside::Sink;
use fz_model::model::Model;
use fz_path::Path;
use fz_printer::Printer;
use fz_search_space::SearchSpace;
use fz_solo::stream;
use fz_team::{OwnBook, OwnPath, portfolio};
use std::alloc::{AllocError, Global};
use std::marker::Brand;
use std::sync::{Arc, Wait};
use std::thread::Threads;

/// Searches a model by as many assets as are asked for, and goes on by one worker with what the first book that has ended leaves, or
/// else the first. Nothing is printed on the way.
///
/// # Errors
/// `AllocError` where there is no memory to begin with; nothing is printed.
pub(crate) fn search_by_assets<
    T: Threads + Wait + Sync,
    S: SearchSpace + Send + Sync,
    K: Sink,
    G: Gate + Sync,
>(
    rt: &T,
    alloc: Global,
    model: &Arc<Model>,
    options: &Options,
    sink: &mut K,
    gate: &G,
) -> Result<Printer, AllocError>
    requires accepts { S.accepts (arc_value model.now) }
    requires faults { K.faults sink.old < 2 ^ 64 - 1 }
    ensures printed { IfOk result (λ p. IsPrinted (arc_value model.now) options.now p
        (K.taken sink.old) (K.taken sink.new)) }
    ensures cause { IfOk result
        (λ p. CountsMark (K.faults sink.old) (K.faults sink.new) (stopped_of p)) }
    ensures untaken { OnErr result (K.taken sink.new ≡ K.taken sink.old) }
    ensures no_fault { OnErr result (K.faults sink.new ≡ K.faults sink.old) }
{
    let distance = options.commit_distance();
    let mode = mode_for(model.goal(), options);
    let adaptive = options.adaptive_distance();
    let mut path: Path<S> = Path::idle(alloc, model.clone()?, mode, distance, adaptive)?;
    let book = book_by_assets::<T, S, G, Brand>(rt, alloc, model, options, &path, gate)?;
    let mut printer = Printer::new(book, false, enough_for(model.goal(), options));
    stream(alloc, &mut printer, &mut path, sink);
    let _ = printer.book().model();
    Ok(printer)
}

/// The book that the assets leave, or one that is begun where that let go of some.
fn book_by_assets<
    T: Threads + Wait + Sync,
    S: SearchSpace + Send + Sync,
    G: Gate + Sync,
    B: Subject + Send + Sync,
>(
    rt: &T,
    alloc: Global,
    model: &Arc<Model>,
    options: &Options,
    path: &Path<S>,
    gate: &G,
) -> Result<Book, AllocError>
    requires accepts { S.accepts (arc_value model.now) }
    requires subject { IsOfModel B.model B.mode (arc_value model.now) options.now }
    requires idle { bare path.now ≡ idle_path
        B.model B.mode options.now.commit_distance options.now.adaptive_distance }
    ensures own { IfOk result (λ b. IsBookOf
        (arc_value model.now) (mode_for (arc_value model.now).goal options.now) b.book) }
    ensures whole { IfOk result (λ b. b.gone ≡ 0) }
{
    let books = books_of::<B>(alloc, model, options)?;
    let paths = paths_on_assets::<S, B>(alloc, model, path, options)?;
    let enough = enough_for(model.goal(), options);
    let left = portfolio(rt, alloc, books, paths, enough, gate);
    let book = chosen(left.books, enough);
    if book.gone_count() == 0 {
        return Ok(book);
    }
    Ok(begun::<B>(alloc, model, options)?.into_book())
}

/// A book for each asset.
fn books_of<B: Subject>(
    alloc: Global,
    model: &Arc<Model>,
    options: &Options,
) -> Result<Vec<OwnBook<B>>, AllocError>
    requires { IsOfModel B.model B.mode (arc_value model.now) options.now }
    ensures count { IfOk result (λ v. vec_len v ≡ options.now.assets) }
    ensures some { IfOk result (λ v. 1 ≤ vec_len v) }
{
    let count = options.assets();
    let mut books = Vec::new(alloc);
    'assets: for _asset in 0..count {
        books.push(begun::<B>(alloc, model, options)?)?;
    }
    Ok(books)
}

/// A book in which the whole tree is open.
fn begun<B: Subject>(
    alloc: Global,
    model: &Arc<Model>,
    options: &Options,
) -> Result<OwnBook<B>, AllocError>
    requires { IsOfModel B.model B.mode (arc_value model.now) options.now }
    ensures { IfOk result (λ b. b.gone ≡ 0) }
{
    let mode = mode_for(model.goal(), options);
    Ok(OwnBook::new(begin(alloc, model, mode)?))
}

/// As many idle paths as workers are asked for, by the plans of as many assets as are asked for, dealt around. Each stands beside
/// another of its asset, if there is one: they share what is posted, the plan and the root's space.
fn paths_on_assets<S: SearchSpace, B: Subject>(
    alloc: Global,
    model: &Arc<Model>,
    path: &Path<S>,
    options: &Options,
) -> Result<Vec<OwnPath<S, B>>, AllocError>
    requires accepts { S.accepts (arc_value model.now) }
    requires subject { IsOfModel B.model B.mode (arc_value model.now) options.now }
    requires idle { bare path.now ≡ idle_path
        B.model B.mode options.now.commit_distance options.now.adaptive_distance }
    ensures several { IfOk result (λ v. (1 ≤ vec_len v) × (vec_len v ≤ 64)) }
    ensures workers { IfOk result (λ v. AreOnAssets B.model B.mode options.now v.items) }
{
    let count = options.workers();
    let mut paths = Vec::new(alloc);
    'workers: for _worker in 0..count {
        let next = next_of::<S, B>(alloc, model, path, options, &paths)?;
        paths.push(OwnPath::new(next))?;
    }
    Ok(paths)
}

/// The path of the next worker.
fn next_of<S: SearchSpace, B: Subject>(
    alloc: Global,
    model: &Arc<Model>,
    path: &Path<S>,
    options: &Options,
    paths: &[OwnPath<S, B>],
) -> Result<Path<S>, AllocError>
    requires accepts { S.accepts (arc_value model.now) }
    requires subject { IsOfModel B.model B.mode (arc_value model.now) options.now }
    requires idle { bare path.now ≡ idle_path
        B.model B.mode options.now.commit_distance options.now.adaptive_distance }
    requires others { AreOfAssets B.model B.mode options.now paths.now }
    ensures { IfOk result (λ p. bare p ≡ asset_path
        B.model B.mode options.now (length paths.now % options.now.assets)) }
{
    let worker = paths.len();
    let assets = options.assets() as usize;
    if worker < assets {
        return first_of::<S, B>(alloc, model, path, options, worker as u32);
    }
    paths[worker - assets].path().beside()
}

/// The first path of an asset; that of asset 0 stands beside one by the model's own plan.
fn first_of<S: SearchSpace, B: Subject>(
    alloc: Global,
    model: &Arc<Model>,
    path: &Path<S>,
    options: &Options,
    asset: u32,
) -> Result<Path<S>, AllocError>
    requires accepts { S.accepts (arc_value model.now) }
    requires subject { IsOfModel B.model B.mode (arc_value model.now) options.now }
    requires idle { bare path.now ≡ idle_path
        B.model B.mode options.now.commit_distance options.now.adaptive_distance }
    requires asset { asset < options.now.assets }
    ensures { IfOk result (λ p. bare p ≡ asset_path B.model B.mode options.now asset) }
{
    let _ = options.assets();
    if asset == 0 {
        return path.beside();
    }
    let plan = Plan::of_asset(alloc, model, asset)?;
    let mode = mode_for(model.goal(), options);
    let (distance, adaptive) = (options.commit_distance(), options.adaptive_distance());
    let path = Path::idle_with(alloc, model.clone()?, mode, plan, distance, adaptive)?;
    Ok(path)
}

/// The first book that has as many as are wanted or nothing open, else the first.
fn chosen<B: Subject>(books: Vec<OwnBook<B>>, wanted: Option<u32>) -> Book
    requires { 1 ≤ vec_len books }
    ensures own { IsBookOf B.model B.mode result.book }
    ensures ended { Any (λ (b : Roomy). HasEnded wanted b.book) books.items
        → HasEnded wanted result.book }
{
    let mut books = books;
    let place = place_of_ended(&books, wanted);
    books.swap_remove(place).into_book()
}

/// The place of the first book that has as many as are wanted or nothing open, else 0.
fn place_of_ended<B: Subject>(books: &[OwnBook<B>], wanted: Option<u32>) -> usize
    requires { 1 ≤ length books.now }
    ensures within { result < length books.now }
    ensures ended { Any (λ (b : Roomy). HasEnded wanted b.book) books.now
        → (d : Roomy) → HasEnded wanted (slice_index_or books.now result d).book }
{
    'books: for place in 0..books.len() {
        if has_ended(books[place].book(), wanted) {
            return place;
        }
    }
    0
}

/// Whether as many as are wanted are recorded, or nothing is open.
fn has_ended(book: &Book, wanted: Option<u32>) -> bool
    ensures { IsTrue result ↔ HasEnded wanted book.now.book }
{
    has_enough(book, wanted) || book.is_closed()
}

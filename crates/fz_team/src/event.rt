//! One event of one worker: the lock, the call, the gate.
ghost use Rattle.std.specs.Prelude.{length, ◌≡◌, ◌≢◌, ◌≤◌, ◌<◌, IfOk, IfSome, OnOk, OnErr};
ghost use Rattle.fz_team.specs.Members.{IsMember, IsTaskOf};
ghost use Rattle.fz_team.specs.Shares.{IsShare};

use crate::crew::{Asset, Crew};
use crate::member::Member;
use crate::own::{OwnBook, Scored};
use crate::section;
use crate::section::{CutOff, Handed, Reported};
use fz_book::{Book, Offered, has_enough};
use fz_collect::{OwnAccount, Solution, Subject, Told};
use fz_io::gate::{EventKind, Gate};
use fz_path::{Path, Start, Step, Task, is_report_due};
use fz_search_space::SearchSpace;
use std::alloc::AllocError;
use std::sync::Wait;
use std::sync::atomic::Ordering;

/// What a worker is to do next, as it saw its path last.
#[derive(Clone, Copy)]
pub enum Next {
    /// It has something to report.
    Report,
    /// It holds a frontier.
    Step,
    /// It holds nothing.
    Gain,
}

/// What a path asks for, whose worker was asked so often for what it found when it last reported.
fn next_of<S: SearchSpace, G: Gate, T: Subject>(
    crew: &Crew<S, G, T>,
    worker: u32,
    path: &Path<S>,
    heard: u64,
) -> Next
    requires { 1 ≤ length crew.now.paths.now }
{
    if path.is_idle() {
        return Next::Gain;
    }
    if path.is_spent() || is_to_tell(crew, worker, path, heard) {
        return Next::Report;
    }
    Next::Step
}

/// Whether what a path found is to be reported: in batches, of at most its share of what is still wanted, or where it has waited.
fn is_to_tell<S: SearchSpace, G: Gate, T: Subject>(
    crew: &Crew<S, G, T>,
    worker: u32,
    path: &Path<S>,
    heard: u64,
) -> bool
    requires { 1 ≤ length crew.now.paths.now }
{
    let waited = crew.outbox.asks().saturating_sub(heard);
    is_report_due(path, waited, wanted_of_each(crew, worker))
}

/// How many are still wanted of each worker, if a number is.
fn wanted_of_each<S: SearchSpace, G: Gate, T: Subject>(
    crew: &Crew<S, G, T>,
    worker: u32,
) -> Option<u64>
    requires { 1 ≤ length crew.now.paths.now }
{
    let enough = crew.enough? as u64;
    let recorded = crew.asset_of(worker).recorded.load(Ordering::SeqCst);
    Some(share(enough, recorded, crew.paths.len() as u64))
}

/// The least number of which, found by each of that many workers, would be enough beside those that are recorded.
fn share(enough: u64, recorded: u64, workers: u64) -> u64
    requires { 1 ≤ workers }
    ensures { IsShare enough recorded workers result }
{
    enough.saturating_sub(recorded).div_ceil(workers)
}

/// What a worker is to do first: its path may hold something.
pub fn first<R: Wait, S: SearchSpace, G: Gate, T: Subject>(
    rt: &R,
    crew: &Crew<S, G, T>,
    worker: u32,
    heard: u64,
) -> Next
    requires { worker < length crew.now.paths.now }
{
    next_of(
        crew,
        worker,
        crew.paths[worker as usize].lock(rt).path(),
        heard,
    )
}

/// Whether nothing more is to be done on a book.
fn is_done(book: &Book, enough: Option<u32>) -> bool {
    book.is_closed() || has_enough(book, enough)
}

/// A step of the worker's path. Where a best one is sought, what it found is offered to each book, and then put: whoever sees the
/// bound finds an incumbent as good.
pub fn step<R: Wait, S: SearchSpace, G: Gate, T: Subject>(
    rt: &R,
    crew: &Crew<S, G, T>,
    member: &mut Member<S>,
) -> Result<Next, AllocError>
    requires { IsMember T.model crew.now.bound.now (length crew.now.paths.now) member.old }
    ensures { IsMember T.model crew.now.bound.now (length crew.now.paths.now) member.new }
{
    let (found, next) = look(rt, crew, member.worker, member.heard)?;
    if let Some(found) = found {
        offer(rt, crew, member.worker, &found.solution)?;
        share_best(rt, crew, member.worker)?;
        put(crew, member, found);
    }
    Ok(next)
}

/// The step itself, and a copy of what it found where a best one is sought.
fn look<R: Wait, S: SearchSpace, G: Gate, T: Subject>(
    rt: &R,
    crew: &Crew<S, G, T>,
    worker: u32,
    heard: u64,
) -> Result<(Option<Scored<T>>, Next), AllocError>
    requires { worker < length crew.now.paths.now }
{
    crew.gate.before(worker, EventKind::Step);
    let mut path = crew.paths[worker as usize].lock(rt);
    let step = path.step()?;
    if step != Step::Idle {
        crew.gate.at(worker, EventKind::Step);
    }
    let found = if step == Step::Found {
        path.known()?
    } else {
        None
    };
    Ok((found, next_of(crew, worker, path.path(), heard)))
}

/// The worker's book records it, if it is better than its incumbent; then it is told.
fn offer<R: Wait, S: SearchSpace, G: Gate, T: Subject>(
    rt: &R,
    crew: &Crew<S, G, T>,
    worker: u32,
    found: &Solution<T>,
) -> Result<(), AllocError> {
    let (found, copy) = (found.copy()?, found.copy()?);
    let mut book = crew.asset_of(worker).book.lock(rt);
    match book.offer(found)? {
        Offered::Better => crew.outbox.tell(rt, Told::Better(copy)),
        Offered::NotBetter(_) => Ok(()),
    }
}

/// Each other book is offered the incumbent of the worker's own, one after the other.
fn share_best<R: Wait, S: SearchSpace, G: Gate, T: Subject>(
    rt: &R,
    crew: &Crew<S, G, T>,
    worker: u32,
) -> Result<(), AllocError> {
    let (own, count) = (crew.number_of(worker as usize), crew.assets.len());
    if count < 2 {
        return Ok(());
    }
    let Some(best) = crew.assets[own].book.lock(rt).incumbent()? else {
        return Ok(());
    };
    'others: for steps in 1..count {
        let other = &crew.assets[behind(own, steps, count)];
        share_with(rt, crew, worker, other, &best.solution)?;
    }
    Ok(())
}

/// The place that many steps behind one, around.
fn behind(own: usize, steps: usize, count: usize) -> usize
    requires own { own < count }
    requires some { 1 ≤ steps }
    requires few { steps < count }
    ensures within { result < count }
    ensures other { result ≢ own }
{
    let left = count - own;
    if steps < left {
        own + steps
    } else {
        steps - left
    }
}

/// Another book is offered a copy, under its lock alone.
fn share_with<R: Wait, S: SearchSpace, G: Gate, T: Subject>(
    rt: &R,
    crew: &Crew<S, G, T>,
    worker: u32,
    other: &Asset<T>,
    best: &Solution<T>,
) -> Result<(), AllocError> {
    let best = best.copy()?;
    crew.gate.before(worker, EventKind::Share);
    let mut book = other.book.lock(rt);
    let _whether_it_is_better = book.offer(best)?;
    crew.gate.at(worker, EventKind::Share);
    Ok(())
}

/// Puts the score of a solution, and keeps the solution where its score is the least that this worker put.
fn put<S: SearchSpace, G: Gate, T: Subject>(
    crew: &Crew<S, G, T>,
    member: &mut Member<S>,
    found: Scored<T>,
)
    requires { IsMember T.model crew.now.bound.now (length crew.now.paths.now) member.old }
    ensures { IsMember T.model crew.now.bound.now (length crew.now.paths.now) member.new }
{
    let Scored { solution, score } = found;
    member.known = member.known.min(score);
    crew.bound.put(&mut member.seat, score);
    if score < member.least {
        member.least = score;
        member.best = Some(solution.into_assignment());
    }
}

/// The worker's path learns its book's incumbent, where the word says that there is a better one than it knows.
pub fn learn<R: Wait, S: SearchSpace, G: Gate, T: Subject>(
    rt: &R,
    crew: &Crew<S, G, T>,
    member: &mut Member<S>,
) -> Result<(), AllocError>
    requires { IsMember T.model crew.now.bound.now (length crew.now.paths.now) member.old }
    ensures { IsMember T.model crew.now.bound.now (length crew.now.paths.now) member.new }
{
    if member.known <= crew.bound.load(&mut member.seat) {
        return Ok(());
    }
    let asset = crew.asset_of(member.worker);
    let Some(best) = asset.book.lock(rt).incumbent()? else {
        return Ok(());
    };
    tell(rt, crew, member.worker, &best.solution)?;
    put(crew, member, best);
    Ok(())
}

/// The worker's path learns a solution.
fn tell<R: Wait, S: SearchSpace, G: Gate, T: Subject>(
    rt: &R,
    crew: &Crew<S, G, T>,
    worker: u32,
    best: &Solution<T>,
) -> Result<(), AllocError>
    requires { worker < length crew.now.paths.now }
{
    crew.gate.before(worker, EventKind::Learn);
    let mut path = crew.paths[worker as usize].lock(rt);
    path.learn(best)?;
    crew.gate.at(worker, EventKind::Learn);
    Ok(())
}

/// The worker hands in its account.
pub fn report<R: Wait, S: SearchSpace, G: Gate, T: Subject>(
    rt: &R,
    crew: &Crew<S, G, T>,
    member: &mut Member<S>,
) -> Result<Next, AllocError>
    requires { IsMember T.model crew.now.bound.now (length crew.now.paths.now) member.old }
    ensures { IsMember T.model crew.now.bound.now (length crew.now.paths.now) member.new }
{
    member.heard = crew.outbox.asks();
    crew.gate.before(member.worker, EventKind::Report);
    let asset = crew.asset_of(member.worker);
    let mut path = crew.paths[member.worker as usize].lock(rt);
    let mut book = asset.book.lock(rt);
    if let Some(Reported { handed, copy }) = section::report(&mut path, &mut book)? {
        taken(handed)?;
        crew.gate.at(member.worker, EventKind::Report);
        tell_account(rt, crew, asset, &mut book, copy)?;
    }
    if is_done(book.book(), crew.enough) {
        crew.stop.store(true, Ordering::SeqCst);
    }
    Ok(next_of(crew, member.worker, path.path(), member.heard))
}

/// What the book took is told, by whoever holds its lock; where somebody prints it, the book lets go of it.
fn tell_account<R: Wait, S: SearchSpace, G: Gate, T: Subject>(
    rt: &R,
    crew: &Crew<S, G, T>,
    asset: &Asset<T>,
    book: &mut OwnBook<T>,
    copy: Result<OwnAccount<T>, AllocError>,
) -> Result<(), AllocError>
    ensures { book.new.book ≡ book.old.book }
{
    let recorded = book.book().recorded_count() as u64;
    asset.recorded.store(recorded, Ordering::SeqCst);
    crew.outbox.tell(rt, Told::Taken(copy?))?;
    if crew.outbox.is_read() {
        book.keep_last();
    }
    Ok(())
}

/// Where an account was dropped, the team ends as for being out of memory: what it was of is open, and nobody holds it.
fn taken(handed: Handed) -> Result<(), AllocError>
    ensures taken { OnOk result (handed ≡ Handed.Taken) }
    ensures dropped { OnErr result (handed ≡ Handed.Dropped) }
{
    match handed {
        Handed::Taken => Ok(()),
        Handed::Dropped => Err(AllocError),
    }
}

/// The worker takes up the task in its hand. What its path learned with it is put.
pub fn start<R: Wait, S: SearchSpace, G: Gate, T: Subject>(
    rt: &R,
    crew: &Crew<S, G, T>,
    member: &mut Member<S>,
) -> Result<Next, AllocError>
    requires { IsMember T.model crew.now.bound.now (length crew.now.paths.now) member.old }
    ensures { IsMember T.model crew.now.bound.now (length crew.now.paths.now) member.new }
{
    let Some(task) = member.hand.take() else {
        return Ok(Next::Gain);
    };
    let (known, next) = take_up(rt, crew, member, task)?;
    if let Some(known) = known {
        put(crew, member, known);
    }
    Ok(next)
}

/// The start itself, and a copy of what the path knows then.
fn take_up<R: Wait, S: SearchSpace, G: Gate, T: Subject>(
    rt: &R,
    crew: &Crew<S, G, T>,
    member: &mut Member<S>,
    task: Task<S>,
) -> Result<(Option<Scored<T>>, Next), AllocError>
    requires member { IsMember T.model crew.now.bound.now (length crew.now.paths.now) member.old }
    requires task { IsTaskOf T.model task }
    ensures { IsMember T.model crew.now.bound.now (length crew.now.paths.now) member.new }
{
    crew.gate.before(member.worker, EventKind::Start);
    let mut path = crew.paths[member.worker as usize].lock(rt);
    match path.start(task) {
        Start::Started => {
            crew.gate.at(member.worker, EventKind::Start);
            let known = path.known()?;
            Ok((
                known,
                next_of(crew, member.worker, path.path(), member.heard),
            ))
        }
        Start::Busy(task) => {
            member.hand = Some(task);
            Ok((
                None,
                next_of(crew, member.worker, path.path(), member.heard),
            ))
        }
        Start::NoMemory(task) => {
            member.hand = Some(task);
            Err(AllocError)
        }
    }
}

/// The worker claims what nobody has claimed, or steals a part of what another holds. It says whether its hand is full.
pub fn gain<R: Wait, S: SearchSpace, G: Gate, T: Subject>(
    rt: &R,
    crew: &Crew<S, G, T>,
    member: &mut Member<S>,
) -> Result<bool, AllocError>
    requires { IsMember T.model crew.now.bound.now (length crew.now.paths.now) member.old }
    ensures { IsMember T.model crew.now.bound.now (length crew.now.paths.now) member.new }
{
    let task = if has_unclaimed(rt, crew, member.worker) {
        claim(rt, crew, member.worker)?
    } else {
        steal_any(rt, crew, member.worker)?
    };
    let full = task.is_some();
    if full {
        member.hand = task;
    }
    Ok(full)
}

/// Whether something is unclaimed in the worker's book. Where nothing is left to do there, all are told to stop.
fn has_unclaimed<R: Wait, S: SearchSpace, G: Gate, T: Subject>(
    rt: &R,
    crew: &Crew<S, G, T>,
    worker: u32,
) -> bool {
    let book = crew.asset_of(worker).book.lock(rt);
    if is_done(book.book(), crew.enough) {
        crew.stop.store(true, Ordering::SeqCst);
        return false;
    }
    book.book().has_unclaimed()
}

fn claim<R: Wait, S: SearchSpace, G: Gate, T: Subject>(
    rt: &R,
    crew: &Crew<S, G, T>,
    worker: u32,
) -> Result<Option<Task<S>>, AllocError>
    ensures { IfOk result (λ o. IfSome o (IsTaskOf T.model)) }
{
    crew.gate.before(worker, EventKind::Claim);
    let mut book = crew.asset_of(worker).book.lock(rt);
    let Some(frontier) = book.claim()? else {
        return Ok(None);
    };
    crew.gate.at(worker, EventKind::Claim);
    Ok(Some(Task::of(frontier)))
}

/// Tries the paths after the worker's own, around.
fn steal_any<R: Wait, S: SearchSpace, G: Gate, T: Subject>(
    rt: &R,
    crew: &Crew<S, G, T>,
    worker: u32,
) -> Result<Option<Task<S>>, AllocError>
    requires { worker < length crew.now.paths.now }
    ensures { IfOk result (λ o. IfSome o (IsTaskOf T.model)) }
{
    let own = worker as usize;
    'behind: for victim in own + 1..crew.paths.len() {
        let task = steal(rt, crew, worker, victim)?;
        if task.is_some() {
            return Ok(task);
        }
    }
    'before: for victim in 0..own {
        let task = steal(rt, crew, worker, victim)?;
        if task.is_some() {
            return Ok(task);
        }
    }
    Ok(None)
}

/// Tries one path, if its worker serves the same book: the path's lock first, the book's inside.
fn steal<R: Wait, S: SearchSpace, G: Gate, T: Subject>(
    rt: &R,
    crew: &Crew<S, G, T>,
    worker: u32,
    victim: usize,
) -> Result<Option<Task<S>>, AllocError>
    requires { victim < length crew.now.paths.now }
    ensures { IfOk result (λ o. IfSome o (IsTaskOf T.model)) }
{
    let is_of_one = crew.number_of(worker as usize) == crew.number_of(victim);
    if !is_of_one || !can_cut(rt, crew, victim) {
        return Ok(None);
    }
    crew.gate.before(worker, EventKind::Steal);
    let asset = crew.asset_of(worker);
    let mut path = crew.paths[victim].lock(rt);
    let mut book = asset.book.lock(rt);
    let Some(CutOff { task, handed, copy }) = section::cut(&mut path, &mut book)? else {
        return Ok(None);
    };
    taken(handed)?;
    crew.gate.at(worker, EventKind::Steal);
    tell_account(rt, crew, asset, &mut book, copy)?;
    Ok(Some(task))
}

/// Whether a path had a part to be cut off when it was looked at.
fn can_cut<R: Wait, S: SearchSpace, G: Gate, T: Subject>(
    rt: &R,
    crew: &Crew<S, G, T>,
    victim: usize,
) -> bool
    requires { victim < length crew.now.paths.now }
{
    crew.paths[victim].lock(rt).path().can_cut()
}

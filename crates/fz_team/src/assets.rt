//! Portfolios: several books of one model, each searched by workers of its own.
ghost use Rattle.std.specs.Prelude.{◌≡◌, ◌≤◌, ◌+◌, ◌++◌, ◌⊎◌, All, IfOk, IfSome, OnOk, vec_len, vec_capacity, length};
ghost use Rattle.fz_bound.specs.Rule.{UNSET, PARTS};
ghost use Rattle.fz_team.specs.Members.{IsMember, listed};
ghost use Rattle.fz_team.specs.Ends.{Ends, EndsOne, IsTeam, HasBests, IsWordOf};

use crate::crew::{Asset, Crew};
use crate::end::{End, PortfolioEnd};
use crate::member::Member;
use crate::own::{OwnBook, OwnPath};
use crate::score::NO_SCORE;
use crate::work::work;
use crossbeam_utils::CachePadded;
use fz_book::has_enough;
use fz_bound::{Bound, Seat};
use fz_collect::{Outbox, Subject};
use fz_io::gate::Gate;
use fz_model::Assignment;
use fz_search_space::SearchSpace;
use std::alloc::{AllocError, Global};
use std::sync::atomic::{AtomicBool, AtomicU64};
use std::sync::{Mutex, Wait};
use std::thread;
use std::thread::Threads;

/// What workers need: a path for each behind a lock of its own, the bound word with the seat that is left, and the workers. There is
/// room for the books behind their locks, and for the books that come back.
#[derive(Drop)]
struct Team<S: SearchSpace, T: Subject> {
    paths: Vec<CachePadded<Mutex<OwnPath<S, T>>>>,
    bound: Bound,
    seat: Seat,
    members: Vec<Member<S>>,
    assets: Vec<Asset<T>>,
    books: Vec<OwnBook<T>>,
}

/// Lets one worker for each path search several books of one model, in each of which the whole tree is open, each in a thread where
/// one can be made. Where there are K books, worker w has path w and serves book w mod K: it takes up what is open in that book,
/// steals from those alone that serve it too, and hands in what it found there. What it found is offered to the other books, too, if
/// a best one is sought. All stop where one of the books has nothing open or as many recorded as are asked for. Nobody is told on the
/// way. The books come back in their order.
pub fn portfolio<
    R: Threads + Wait + Sync,
    S: SearchSpace + Send + Sync,
    G: Gate + Sync,
    T: Subject + Send + Sync,
>(
    rt: &R,
    alloc: Global,
    books: Vec<OwnBook<T>>,
    paths: Vec<OwnPath<S, T>>,
    enough: Option<u32>,
    gate: &G,
) -> PortfolioEnd<T>
    requires assets { 1 ≤ vec_len books }
    requires several { (1 ≤ vec_len paths) × (vec_len paths ≤ 64) }
    ensures books { vec_len result.books ≡ vec_len books }
    ensures end { EndsOne result.end enough T.model T.mode result.books.items }
    ensures bests { HasBests result.end T.model result.bests.items result.word }
{
    search_books(rt, alloc, books, paths, enough, gate, &Outbox::deaf(alloc))
}

/// The same, with an outbox that is told what a book takes.
pub(crate) fn search_books<
    R: Threads + Wait + Sync,
    S: SearchSpace + Send + Sync,
    G: Gate + Sync,
    T: Subject + Send + Sync,
>(
    rt: &R,
    alloc: Global,
    books: Vec<OwnBook<T>>,
    paths: Vec<OwnPath<S, T>>,
    enough: Option<u32>,
    gate: &G,
    outbox: &Outbox<T>,
) -> PortfolioEnd<T>
    requires assets { 1 ≤ vec_len books }
    requires several { (1 ≤ vec_len paths) × (vec_len paths ≤ 64) }
    ensures books { vec_len result.books ≡ vec_len books }
    ensures end { EndsOne result.end enough T.model T.mode result.books.items }
    ensures bests { HasBests result.end T.model result.bests.items result.word }
{
    match team_of(alloc, books.len(), paths) {
        Ok(team) => search_by(rt, alloc, books, team, enough, gate, outbox),
        Err(_) => short(alloc, books),
    }
}

/// The end of workers that had no memory.
fn short<T: Subject>(alloc: Global, books: Vec<OwnBook<T>>) -> PortfolioEnd<T>
    ensures end { result.end ≡ End.Short }
    ensures books { result.books.items ≡ books.items }
{
    PortfolioEnd {
        books,
        bests: Vec::new(alloc),
        word: NO_SCORE,
        end: End::Short,
    }
}

/// A worker for each path, and room for that many books.
fn team_of<S: SearchSpace, T: Subject>(
    alloc: Global,
    count: usize,
    paths: Vec<OwnPath<S, T>>,
) -> Result<Team<S, T>, AllocError>
    requires { vec_len paths ≤ 64 }
    ensures team { IfOk result
        (λ t. IsTeam T.model t.bound (vec_len t.paths) t.seat t.members.items) }
    ensures assets { IfOk result
        (λ t. (vec_len t.assets ≡ 0) × (count ≤ vec_capacity t.assets)) }
    ensures books { IfOk result
        (λ t. (vec_len t.books ≡ 0) × (count ≤ vec_capacity t.books)) }
{
    let assets = Vec::with_capacity(alloc, count)?;
    let books = Vec::with_capacity(alloc, count)?;
    let (bound, mut seat) = Bound::create(alloc)?;
    let paths = locked(alloc, paths)?;
    let members = members_of::<S, T>(alloc, paths.len(), &bound, &mut seat)?;
    Ok(Team {
        paths,
        bound,
        seat,
        members,
        assets,
        books,
    })
}

/// Each path behind a lock.
fn locked<S: SearchSpace, T: Subject>(
    alloc: Global,
    paths: Vec<OwnPath<S, T>>,
) -> Result<Vec<CachePadded<Mutex<OwnPath<S, T>>>>, AllocError>
    ensures { IfOk result (λ v. vec_len v ≡ vec_len paths) }
{
    let mut locked = Vec::with_capacity(alloc, paths.len())?;
    for path in paths {
        locked.push(CachePadded::new(Mutex::new(path)))?;
    }
    Ok(locked)
}

/// That many workers, each with one part of the bound word.
fn members_of<S: SearchSpace, T: Subject>(
    alloc: Global,
    count: usize,
    bound: &Bound,
    seat: &mut Seat,
) -> Result<Vec<Member<S>>, AllocError>
    requires bound { seat.old.bound ≡ bound.now }
    requires fresh { (seat.old.parts ≡ PARTS) × (seat.old.least ≡ UNSET) }
    requires count { count ≤ 64 }
    ensures members { IfOk result (λ v. All (IsMember T.model bound.now count) v.items) }
    ensures seat { (seat.new.bound ≡ bound.now) × (seat.new.least ≡ UNSET) }
    ensures parts { IfOk result (λ v. seat.new.parts + length v.items ≡ PARTS) }
{
    let mut members = Vec::with_capacity(alloc, count)?;
    'workers: for worker in 0..count {
        let mine = bound.split(seat);
        members.push(Member {
            worker: worker as u32,
            seat: mine,
            best: None,
            least: NO_SCORE,
            hand: None,
            known: NO_SCORE,
            heard: 0,
            short: false,
        })?;
    }
    Ok(members)
}

/// The books go behind locks while the workers act, and come back.
fn search_by<
    R: Threads + Wait + Sync,
    S: SearchSpace + Send + Sync,
    G: Gate + Sync,
    T: Subject + Send + Sync,
>(
    rt: &R,
    alloc: Global,
    books: Vec<OwnBook<T>>,
    team: Team<S, T>,
    enough: Option<u32>,
    gate: &G,
    outbox: &Outbox<T>,
) -> PortfolioEnd<T>
    requires several { 1 ≤ vec_len books }
    requires team { IsTeam T.model team.bound (vec_len team.paths) team.seat team.members.items }
    requires assets { (vec_len team.assets ≡ 0) × (vec_len books ≤ vec_capacity team.assets) }
    requires room { (vec_len team.books ≡ 0) × (vec_len books ≤ vec_capacity team.books) }
    ensures books { vec_len result.books ≡ vec_len books }
    ensures end { EndsOne result.end enough T.model T.mode result.books.items }
    ensures bests { HasBests result.end T.model result.bests.items result.word }
{
    let Team {
        paths,
        bound,
        seat,
        members,
        assets,
        books: room,
    } = team;
    let assets = locked_books(books, assets);
    let after = round(rt, &paths, &assets, &bound, members, enough, gate, outbox);
    let books = unlocked(assets, room);
    let Some(members) = after else {
        return short(alloc, books);
    };
    let end = end_of(&books, enough);
    closing::<S, T>(alloc, books, bound, seat, members, end)
}

/// Each book behind a lock, where there is room for as many.
fn locked_books<T: Subject>(books: Vec<OwnBook<T>>, room: Vec<Asset<T>>) -> Vec<Asset<T>>
    requires empty { vec_len room ≡ 0 }
    requires room { vec_len books ≤ vec_capacity room }
    ensures { vec_len result ≡ vec_len books }
{
    let mut assets = room;
    'books: for book in books {
        let recorded = AtomicU64::new(book.book().recorded_count() as u64);
        assets.push_reserved(Asset {
            book: Mutex::new(book),
            recorded,
        });
    }
    assets
}

/// The books alone, where there is room for as many.
fn unlocked<T: Subject>(assets: Vec<Asset<T>>, room: Vec<OwnBook<T>>) -> Vec<OwnBook<T>>
    requires empty { vec_len room ≡ 0 }
    requires room { vec_len assets ≤ vec_capacity room }
    ensures { vec_len result ≡ vec_len assets }
{
    let mut books = room;
    'assets: for asset in assets {
        books.push_reserved(asset.book.into_inner());
    }
    books
}

/// The workers act until they are told to stop. None where one of them had no memory.
fn round<
    R: Threads + Wait + Sync,
    S: SearchSpace + Send + Sync,
    G: Gate + Sync,
    T: Subject + Send + Sync,
>(
    rt: &R,
    paths: &[CachePadded<Mutex<OwnPath<S, T>>>],
    assets: &[Asset<T>],
    bound: &Bound,
    members: Vec<Member<S>>,
    enough: Option<u32>,
    gate: &G,
    outbox: &Outbox<T>,
) -> Option<Vec<Member<S>>>
    requires several { 1 ≤ length assets.now }
    requires members { All (IsMember T.model bound.now (length paths.now)) members.items }
    ensures all { IfSome result (λ v. All (IsMember T.model bound.now (length paths.now)) v.items) }
    ensures len { IfSome result (λ v. length v.items ≡ length members.items) }
{
    let stop = AtomicBool::new(false);
    let crew = Crew {
        paths,
        assets,
        bound,
        stop: &stop,
        gate,
        outbox,
        enough,
    };
    match in_threads(rt, &crew, members) {
        Ok(after) if !after.iter().any(|member| member.short) => Some(after),
        _ => None,
    }
}

/// Each worker in a thread of its own, where one can be made.
fn in_threads<
    R: Threads + Wait + Sync,
    S: SearchSpace + Send + Sync,
    G: Gate + Sync,
    T: Subject + Send + Sync,
>(rt: &R, crew: &Crew<S, G, T>, members: Vec<Member<S>>) -> Result<Vec<Member<S>>, AllocError>
    requires { All (IsMember T.model crew.now.bound.now (length crew.now.paths.now)) members.items }
    ensures all { IfOk result (λ v. All (IsMember T.model crew.now.bound.now (length crew.now.paths.now)) v.items) }
    ensures len { IfOk result (λ v. length v.items ≡ length members.items) }
{
    thread::map_vec(
        rt,
        members,
        &|member: Member<S>| -> Member<S>
            requires { IsMember T.model crew.now.bound.now (length crew.now.paths.now) member }
            ensures { IsMember T.model crew.entry.now.bound.now (length crew.entry.now.paths.now) result }
        { work(rt, crew, member) },
    )
}

/// The end that one of the books shows. Workers that stopped before that were not to go on.
fn end_of<T: Subject>(books: &[OwnBook<T>], enough: Option<u32>) -> End
    ensures { EndsOne result enough T.model T.mode books.now }
{
    'books: for book in books {
        if let Some(end) = end_shown(book, enough) {
            return end;
        }
    }
    End::Stopped
}

/// The end that a book shows.
fn end_shown<T: Subject>(book: &OwnBook<T>, enough: Option<u32>) -> Option<End>
    ensures { IfSome result (λ end. Ends end enough T.model T.mode book.now.book) }
{
    let book = book.book();
    if has_enough(book, enough) {
        return Some(End::Enough);
    }
    if book.is_closed() {
        return Some(End::Closed);
    }
    None
}

/// What is left at the end: all seats are joined, and the word is closed.
fn closing<S: SearchSpace, T: Subject>(
    alloc: Global,
    books: Vec<OwnBook<T>>,
    bound: Bound,
    seat: Seat,
    members: Vec<Member<S>>,
    end: End,
) -> PortfolioEnd<T>
    requires team { (count : _) × IsTeam T.model bound count seat members.items }
    ensures books { result.books.items ≡ books.items }
    ensures end { (result.end ≡ end) ⊎ (result.end ≡ End.Short) }
    ensures bests { HasBests result.end T.model result.bests.items result.word }
{
    match gathered::<S, T>(alloc, &bound, seat, members) {
        Ok((seat, bests)) => PortfolioEnd {
            books,
            bests,
            word: bound.close(seat),
            end,
        },
        Err(_) => short(alloc, books),
    }
}

/// All seats in one, and what the workers found.
fn gathered<S: SearchSpace, T: Subject>(
    alloc: Global,
    bound: &Bound,
    seat: Seat,
    members: Vec<Member<S>>,
) -> Result<(Seat, Vec<Assignment>), AllocError>
    requires team { (count : _) × IsTeam T.model bound.now count seat members.items }
    ensures seat { IfOk result (λ r. (r.0.bound ≡ bound.now) × (r.0.parts ≡ PARTS)) }
    ensures word { IfOk result (λ r. IsWordOf T.model r.1.items r.0.least) }
{
    let mut seat = seat;
    let mut bests = Vec::new(alloc);
    'members: for member in members {
        let Member {
            seat: mine,
            best,
            ..
        } = member;
        bound.join(&mut seat, mine);
        keep(&mut bests, best)?;
    }
    Ok((seat, bests))
}

/// Adds what a worker found, if it did.
fn keep(bests: &mut Vec<Assignment>, best: Option<Assignment>) -> Result<(), AllocError>
    ensures { OnOk result (bests.new.items ≡ bests.old.items ++ listed best) }
{
    if let Some(best) = best {
        bests.push(best)?;
    }
    Ok(())
}

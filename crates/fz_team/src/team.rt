//! Teams: the workers of one book.
ghost use Rattle.std.specs.Prelude.{◌≡◌, ◌≤◌, ℕ, Option, IfOk, vec_len};
ghost use Rattle.fz_tree.specs.Book.{BookLaw};
ghost use Rattle.fz_collect.specs.Subjects.{IsBookOf};
ghost use Rattle.fz_team.specs.Ends.{Ends, EndsOne, HasBests};

use crate::assets::search_books;
use crate::end::{End, PortfolioEnd, TeamEnd};
use crate::own::{OwnBook, OwnPath};
use crate::score::NO_SCORE;
use fz_book::Book;
use fz_collect::{Outbox, Subject};
use fz_io::gate::Gate;
use fz_path::Path;
use fz_search_space::SearchSpace;
use std::alloc::{AllocError, Global};
use std::sync::Wait;
use std::thread::Threads;

/// Lets one worker for each path search what is open in a book, each in a thread where one can be made, until nothing is open or as
/// many are recorded as are asked for. Each account that the book takes, and each better one that it records, is told, until nobody
/// takes that any more. Whatever the threads did, the book keeps its law. Where a path is of another model or mode than the book,
/// nothing is searched, and it ends as for being out of memory.
pub fn run<
    R: Threads + Wait + Sync,
    S: SearchSpace + Send + Sync,
    G: Gate + Sync,
    T: Subject + Send + Sync,
>(
    rt: &R,
    alloc: Global,
    book: Book,
    paths: Vec<Path<S>>,
    enough: Option<u32>,
    gate: &G,
    outbox: &Outbox<T>,
) -> TeamEnd
    requires several { (1 ≤ vec_len paths) × (vec_len paths ≤ 64) }
    requires subject { IsBookOf T.model T.mode book.book }
    ensures law { BookLaw result.book.book }
    ensures end { Ends result.end enough book.book.model book.book.mode result.book.book }
    ensures bests { HasBests result.end book.book.model result.bests.items result.word }
{
    match own_paths(alloc, &book, paths) {
        Ok(paths) => run_own(rt, alloc, OwnBook::new(book), paths, enough, gate, outbox),
        Err(_) => short(alloc, book),
    }
}

/// The paths, where all are of the book's model and mode; else it is as where there is no memory.
fn own_paths<S: SearchSpace, T: Subject>(
    alloc: Global,
    book: &Book,
    paths: Vec<Path<S>>,
) -> Result<Vec<OwnPath<S, T>>, AllocError>
    requires { IsBookOf T.model T.mode book.now.book }
    ensures { IfOk result (λ v. vec_len v ≡ vec_len paths) }
{
    let mut own = Vec::with_capacity(alloc, paths.len())?;
    for path in paths {
        if path.mode() != book.mode() || !path.model().same(book.model()) {
            return Err(AllocError);
        }
        own.push(OwnPath::new(path))?;
    }
    Ok(own)
}

/// The same with a book and paths that are known to be of one model and mode. It is a portfolio of one book.
pub fn run_own<
    R: Threads + Wait + Sync,
    S: SearchSpace + Send + Sync,
    G: Gate + Sync,
    T: Subject + Send + Sync,
>(
    rt: &R,
    alloc: Global,
    book: OwnBook<T>,
    paths: Vec<OwnPath<S, T>>,
    enough: Option<u32>,
    gate: &G,
    outbox: &Outbox<T>,
) -> TeamEnd
    requires several { (1 ≤ vec_len paths) × (vec_len paths ≤ 64) }
    ensures law { BookLaw result.book.book }
    ensures end { Ends result.end enough T.model T.mode result.book.book }
    ensures bests { HasBests result.end T.model result.bests.items result.word }
{
    let Ok(mut books) = Vec::with_capacity(alloc, 1) else {
        return short(alloc, book.into_book());
    };
    books.push_reserved(book);
    alone(search_books(rt, alloc, books, paths, enough, gate, outbox))
}

/// What a portfolio of one book leaves, as a team.
fn alone<T: Subject>(left: PortfolioEnd<T>) -> TeamEnd
    requires { vec_len left.books ≡ 1 }
    ensures law { BookLaw result.book.book }
    ensures end { (enough : Option ℕ) → EndsOne left.end enough T.model T.mode left.books.items
        → Ends result.end enough T.model T.mode result.book.book }
    ensures bests { HasBests left.end T.model left.bests.items left.word
        → HasBests result.end T.model result.bests.items result.word }
{
    let PortfolioEnd {
        mut books,
        bests,
        word,
        end,
    } = left;
    let Some(book) = books.pop() else {
        unreachable!()
    };
    TeamEnd {
        book: book.into_book(),
        bests,
        word,
        end,
    }
}

/// The end of a team that had no memory.
fn short(alloc: Global, book: Book) -> TeamEnd
    ensures end { result.end ≡ End.Short }
    ensures law { BookLaw result.book.book }
{
    let _ = book.model();
    TeamEnd {
        book,
        bests: Vec::new(alloc),
        word: NO_SCORE,
        end: End::Short,
    }
}

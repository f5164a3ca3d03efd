//! Critical sections: what a worker does to the values behind the locks that it holds.
ghost use Rattle.std.specs.Prelude.{◌≡◌, ◌≤◌, ◌+◌, IfOk, IfSome, OnOk, OnErr};
ghost use Rattle.fz_book.specs.Needs.{found_needed, given_needed};
ghost use Rattle.fz_path.specs.Paths.{bare, found_held};
ghost use Rattle.fz_team.specs.Members.{IsTaskOf};
ghost use Rattle.fz_team.specs.Sections.{HandsIn, Reports, Cuts};

use crate::own::{OwnBook, OwnPath};
use fz_book::Taken;
use fz_collect::{OwnAccount, Subject};
use fz_path::Task;
use fz_search_space::SearchSpace;
use std::alloc::AllocError;

/// What became of an account that was handed in.
#[derive(Clone, Copy, Debug, PartialEq, Eq)]
pub enum Handed {
    /// The book took it.
    Taken,
    /// It was of no open frontier.
    Dropped,
}

/// What became of an account that was handed in, and a copy of it, where there was memory for one.
#[derive(Drop)]
pub struct Reported<T: Subject> {
    pub handed: Handed,
    pub copy: Result<OwnAccount<T>, AllocError>,
}

/// A part that was cut off, what became of the account that names it, and a copy of that.
#[derive(Drop)]
pub struct CutOff<S: SearchSpace, T: Subject> {
    pub task: Task<S>,
    pub handed: Handed,
    pub copy: Result<OwnAccount<T>, AllocError>,
}

/// Makes room for what a path found and knows, and for one part that it gives.
fn make_room<S: SearchSpace, T: Subject>(
    book: &mut OwnBook<T>,
    path: &OwnPath<S, T>,
) -> Result<(), AllocError>
    ensures found { OnOk result (found_held path.now.held + 1 ≤ book.new.found_room) }
    ensures given { OnOk result (1 ≤ book.new.given_room) }
    ensures book { book.new.book ≡ book.old.book }
{
    book.make_room(path.path().found_count() + 1, 1)
}

/// The book takes an account for which it has room. One that it doesn't take is dropped: what it is of stays open.
fn hand_in<T: Subject>(book: &mut OwnBook<T>, account: OwnAccount<T>) -> Handed
    requires found { found_needed account ≤ book.old.found_room }
    requires given { given_needed account ≤ book.old.given_room }
    ensures { HandsIn result account book.old.book book.new.book }
{
    match book.take(account) {
        Taken::Taken => Handed::Taken,
        Taken::Stranger(_) => Handed::Dropped,
        Taken::Foreign(_) | Taken::NoMemory(_) => unreachable!(),
    }
}

/// The book takes the account of what the path holds, and the path goes on with what is left. `None` where it held nothing.
///
/// # Errors
/// `AllocError` where there is no memory; the path is as before, and so is the book, but for its room.
pub fn report<S: SearchSpace, T: Subject>(
    path: &mut OwnPath<S, T>,
    book: &mut OwnBook<T>,
) -> Result<Option<Reported<T>>, AllocError>
    ensures reported { IfOk result (λ reported.
        Reports reported (bare path.old) book.old.book (bare path.new) book.new.book) }
    ensures path { OnErr result (path.new ≡ path.old) }
    ensures book { OnErr result (book.new.book ≡ book.old.book) }
{
    let _ = path.path().model();
    make_room(book, path)?;
    let Some(account) = path.report()? else {
        return Ok(None);
    };
    let copy = account.copy();
    Ok(Some(Reported {
        handed: hand_in(book, account),
        copy,
    }))
}

/// Cuts a part off what the path holds and hands it out, if there is one. The book takes the account that names it as given, and the
/// path goes on with what is left.
///
/// # Errors
/// `AllocError` where there is no memory; the path is as before, and so is the book, but for its room.
pub fn cut<S: SearchSpace, T: Subject>(
    path: &mut OwnPath<S, T>,
    book: &mut OwnBook<T>,
) -> Result<Option<CutOff<S, T>>, AllocError>
    ensures task { IfOk result (λ off. IfSome off (λ o. IsTaskOf T.model o.task)) }
    ensures cut { IfOk result
        (λ off. Cuts off path.old book.old.book (bare path.new) book.new.book) }
    ensures path { OnErr result (path.new ≡ path.old) }
    ensures book { OnErr result (book.new.book ≡ book.old.book) }
{
    let _ = path.path().model();
    make_room(book, path)?;
    let Some(cut) = path.cut()? else {
        return Ok(None);
    };
    let copy = cut.account.copy();
    let handed = hand_in(book, cut.account);
    Ok(Some(CutOff {
        task: cut.task,
        handed,
        copy,
    }))
}

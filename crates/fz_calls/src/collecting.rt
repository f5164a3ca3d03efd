//! Workers in threads: what a team leaves, and what a collector is told.
ghost use Rattle.std.specs.Prelude.{◌≡◌};
ghost use Rattle.fz_collect.specs.Subjects.{IsBookOf};

use crate::books::{book_of, path_of};
use fz_book::{Book, Taken};
use fz_collect::{Collect, News, Outbox, Subject, gather};
use fz_io::gate::NoGate;
use fz_path::Path;
use fz_script::Answer;
use fz_space::Space;
use fz_team::{End, TeamEnd, run as search_by};
use std::alloc::{AllocError, Global};
use std::marker::{Brand, PhantomData};
use std::sync::Wait;
use std::thread::Threads;

/// A book of its own, and how many accounts it didn't take.
#[derive(Drop)]
struct Booked<T: Subject> {
    book: Book,
    dropped: u32,
    subject: PhantomData<T>,
}

impl<T: Subject> Collect<()> for Booked<T> {
    ghost works = { λ b k. Unit {0} };

    ghost enough = { λ b. ⊥ };

    ghost grew = { λ b k c l. Unit {0} };

    ghost model = { λ b. T.model };

    ghost mode = { λ b. T.mode };

    ghost keeps = { λ b k c l g. (λ i. T.model, λ i. T.mode) };

    ghost stays = { λ b k w. tt };

    ghost goes_on = { λ a i b j c k first w second. tt };

    fn has_enough(&self) -> bool {
        false
    }

    fn is_due(&self, _lent: &()) -> bool {
        true
    }

    fn take_in(&mut self, _alloc: Global, _lent: &mut (), news: News) {
        let is_taken = match news {
            News::Taken(account) => matches!(self.book.take(account), Taken::Taken),
            News::Better(_) => true,
        };
        if !is_taken {
            self.dropped = self.dropped.saturating_add(1);
        }
    }

    fn look_up(&mut self, _lent: &mut ()) {}
}

/// What a collector is told of all that two workers found: how many solutions, and how many accounts it didn't take.
pub fn run<R: Threads + Wait + Sync>(
    rt: &R,
    alloc: Global,
    text: &str,
) -> Result<Answer, AllocError> {
    let (Some(book), Some(own)) = (book_of(alloc, text)?, book_of(alloc, text)?) else {
        return Ok(Answer::of(1, Vec::new(alloc)));
    };
    let (Some(first), Some(second)) = (path_of(alloc, text)?, path_of(alloc, text)?) else {
        return Ok(Answer::of(1, Vec::new(alloc)));
    };
    let (end, own, dropped) = collected::<R, Brand>(rt, alloc, book, own, first, second)?;
    let end = word_of(end);
    let (recorded, is_closed) = (own.recorded_count(), own.is_closed());
    let told = format!(in alloc; "{end}: {recorded} recorded, {dropped} dropped, {is_closed}\n")?;
    Ok(Answer::of(0, told.into_bytes()))
}

/// Two workers search a book, and a collector with a book of its own is told after them.
fn collected<R: Threads + Wait + Sync, T: Subject + Send + Sync>(
    rt: &R,
    alloc: Global,
    book: Book,
    own: Book,
    first: Path<Space>,
    second: Path<Space>,
) -> Result<(End, Book, u32), AllocError>
    requires { IsBookOf T.model T.mode book.book }
{
    let outbox: Outbox<T> = Outbox::new(alloc);
    let paths = vec![in alloc; first, second]?;
    let end = search_by(rt, alloc, book, paths, None, &NoGate, &outbox).end;
    outbox.end();
    let mut collector: Booked<T> = Booked {
        book: own,
        dropped: 0,
        subject: PhantomData,
    };
    gather(rt, alloc, &outbox, &mut collector, &mut ());
    Ok((end, collector.book, collector.dropped))
}

/// What a team of one worker leaves: how it ended, the best that the worker found, and the least score that was put.
pub fn team<R: Threads + Wait + Sync>(
    rt: &R,
    alloc: Global,
    text: &str,
) -> Result<Answer, AllocError> {
    let (Some(book), Some(path)) = (book_of(alloc, text)?, path_of(alloc, text)?) else {
        return Ok(Answer::of(1, Vec::new(alloc)));
    };
    let left = searched::<R, Brand>(rt, alloc, book, path)?;
    let mut told = format!(in alloc; "{}:", word_of(left.end))?;
    for best in &left.bests {
        for value in best.values() {
            told.push_str(&format!(in alloc; " {value}")?)?;
        }
        told.push_str(";")?;
    }
    told.push_str(&format!(in alloc; " {}\n", left.word)?)?;
    Ok(Answer::of(0, told.into_bytes()))
}

fn searched<R: Threads + Wait + Sync, T: Subject + Send + Sync>(
    rt: &R,
    alloc: Global,
    book: Book,
    path: Path<Space>,
) -> Result<TeamEnd, AllocError>
    requires { IsBookOf T.model T.mode book.book }
{
    let outbox: Outbox<T> = Outbox::new(alloc);
    let paths = vec![in alloc; path]?;
    Ok(search_by(rt, alloc, book, paths, None, &NoGate, &outbox))
}

fn word_of(end: End) -> &'static str {
    match end {
        End::Enough => "enough",
        End::Closed => "closed",
        End::Short => "short",
        End::Stopped => "stopped",
    }
}

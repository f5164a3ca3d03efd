//! A book, step by step, and searches of whole books.
ghost use Rattle.std.specs.Prelude.{◌≡◌, IfSome};
ghost use Rattle.fz_book.specs.Reports.{IsReportable};

use crate::steps::{Stepped, take_all};
use crate::values::{assignment_of, mode, shared_model, values_of};
use fz_account::Account;
use fz_book::{Book, End, Offered, Taken};
use fz_path::{Path, Start};
use fz_region::Frontier;
use fz_script::Answer;
use fz_solo::finish;
use fz_space::Space;
use std::alloc::{AllocError, Global};

/// A book of a text's model.
#[derive(Drop)]
struct Books<'a> {
    text: &'a str,
    book: Book,
}

/// Takes rows of steps with the book of a text's model.
pub fn run(alloc: Global, text: &str, rows: &[&str]) -> Result<Answer, AllocError> {
    match book_of(alloc, text)? {
        Some(book) => take_all(alloc, &mut Books { text, book }, rows),
        None => Ok(Answer::of(1, Vec::new(alloc))),
    }
}

/// The book of a text's model; none where that is refused.
pub fn book_of(alloc: Global, text: &str) -> Result<Option<Book>, AllocError> {
    let Some(model) = shared_model(alloc, text)? else {
        return Ok(None);
    };
    let mode = mode(model.goal());
    Ok(Some(Book::begin(alloc, model, mode)?))
}

/// An idle path of a text's model; none where that is refused.
pub fn path_of(alloc: Global, text: &str) -> Result<Option<Path<Space>>, AllocError> {
    let Some(model) = shared_model(alloc, text)? else {
        return Ok(None);
    };
    let mode = mode(model.goal());
    Ok(Some(Path::idle(alloc, model, mode, 8, 2)?))
}

impl Stepped for Books<'_> {
    fn take(&mut self, alloc: Global, step: &str) -> Result<Option<String>, AllocError> {
        let (word, rest) = step.split_once(' ').unwrap_or((step, ""));
        let answer = match word.as_bytes() {
            b"claim" => claim(alloc, &mut self.book)?,
            b"offer" => String::from_str(alloc, offer(alloc, &mut self.book, rest)?)?,
            b"take" => String::from_str(alloc, take(alloc, &mut self.book, self.text)?)?,
            b"other" => String::from_str(alloc, take(alloc, &mut self.book, OTHER)?)?,
            b"book" => recorded(alloc, &self.book)?,
            b"open" => open(alloc, &self.book)?,
            _ => return Ok(None),
        };
        Ok(Some(answer))
    }
}

/// A text of another model.
const OTHER: &str = "var 1..3: x; solve minimize x;";

/// How many edges what is claimed has.
fn claim(alloc: Global, book: &mut Book) -> Result<String, AllocError> {
    match book.claim()? {
        Some(frontier) => format!(in alloc; "{}", frontier.edges().len()),
        None => String::from_str(alloc, "nothing"),
    }
}

/// What becomes of an assignment of one variable.
fn offer(alloc: Global, book: &mut Book, word: &str) -> Result<&'static str, AllocError> {
    let Some(assignment) = assignment_of(alloc, word)? else {
        return Ok("no number");
    };
    match book.offer(assignment) {
        Ok(Offered::Better) => Ok("better"),
        Ok(Offered::NotBetter(_)) => Ok("not better"),
        Err(_) => Err(AllocError),
    }
}

/// What becomes of the account of the whole tree of a text's model.
fn take(alloc: Global, book: &mut Book, text: &str) -> Result<&'static str, AllocError> {
    let Some(account) = account_of(alloc, text)? else {
        return Ok("no account");
    };
    Ok(match book.take(account) {
        Taken::Taken => "taken",
        Taken::Stranger(_) => "stranger",
        Taken::Foreign(_) => "foreign",
        Taken::NoMemory(_) => "no memory",
    })
}

/// The account of the whole tree of a text's model after five steps.
fn account_of(alloc: Global, text: &str) -> Result<Option<Account>, AllocError> {
    let Some(mut path) = path_of(alloc, text)? else {
        return Ok(None);
    };
    if !matches!(path.start(Frontier::root(alloc)), Start::Started) {
        return Ok(None);
    }
    for _step in 0..5u32 {
        path.step()?;
    }
    path.report()
}

/// What a book recorded, and whether it is closed.
pub fn recorded(alloc: Global, book: &Book) -> Result<String, AllocError> {
    let values = values_of(alloc, book.recorded())?;
    let end = if book.is_closed() { "closed" } else { "open" };
    format!(in alloc; "{values} {end}")
}

/// How many parts of a book are open, and the edges of the first.
pub fn open(alloc: Global, book: &Book) -> Result<String, AllocError> {
    let edges = match book.first_open() {
        Some(frontier) => edges_of(alloc, frontier)?,
        None => String::new(alloc),
    };
    format!(in alloc; "{}{edges}", book.open_count())
}

/// The alternative that each edge takes and its last one that is open, and whether the node below is open.
pub fn edges_of(alloc: Global, frontier: &Frontier) -> Result<String, AllocError> {
    let mut text = String::new(alloc);
    for place in 0..frontier.edges().len() {
        let edge = frontier.edges().edge(place);
        text.push_str(&format!(in alloc; " {}-{}", edge.taken, edge.last)?)?;
    }
    text.push_str(if frontier.is_current_open() {
        " below"
    } else {
        ""
    })?;
    Ok(text)
}

/// A search of a text's model that stops where that many are recorded, and then goes on with the same path; `best` records the best alone.
pub fn search(alloc: Global, text: &str, word: &str) -> Result<Answer, AllocError> {
    match (book_of(alloc, text)?, path_of(alloc, text)?) {
        (Some(book), Some(path)) => search_twice(alloc, book, path, word),
        _ => Ok(Answer::of(1, Vec::new(alloc))),
    }
}

fn search_twice(
    alloc: Global,
    book: Book,
    path: Path<Space>,
    word: &str,
) -> Result<Answer, AllocError> {
    let (mut book, mut path) = (book, path);
    if path.is_idle() && path.mode() == book.mode() && path.model().same(book.model()) {
        return finish_twice(alloc, &mut book, &mut path, word);
    }
    Ok(Answer::of(1, Vec::new(alloc)))
}

fn finish_twice(
    alloc: Global,
    book: &mut Book,
    path: &mut Path<Space>,
    word: &str,
) -> Result<Answer, AllocError>
    requires held { IfSome path.old.held (IsReportable book.old.book) }
    requires model { path.old.model ≡ book.old.book.model }
    requires mode { path.old.mode ≡ book.old.book.mode }
{
    let improving = word != "best";
    let first = finish(book, path, word.parse::<u32>().ok(), improving)?;
    let count = book.recorded_count();
    let second = finish(book, path, None, improving)?;
    searched(alloc, word_of(first), count, word_of(second), book)
}

fn searched(
    alloc: Global,
    first: &str,
    count: usize,
    second: &str,
    book: &Book,
) -> Result<Answer, AllocError> {
    let after = recorded(alloc, book)?;
    let told = format!(in alloc; "{first} {count}; {second}: {after}\n")?;
    Ok(Answer::of(0, told.into_bytes()))
}

/// How a search ended.
pub fn word_of(end: End) -> &'static str {
    match end {
        End::Closed => "closed",
        End::Enough => "enough",
    }
}

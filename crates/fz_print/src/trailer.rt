//! The last piece of a run.
ghost use Rattle.std.specs.Prelude.{◌≡◌, ◌++◌, IfOk};
ghost use Rattle.fz_print.specs.Ending.{count_text, ending_text, statistics_text, summary_text};
ghost use Rattle.fz_print.specs.Refusal.{text_of};

use crate::ending::Ending;
use crate::refusal::Refusal;
use itoa::Buffer;
use std::alloc::{AllocError, Global};

/// The line after the blocks of a search that ends so, and after it, where it is given, how many solutions were printed: the lines
/// `%%%mznStat: nSolutions=1` and `%%%mznStatEnd`.
pub fn trailer(alloc: Global, ending: Ending, solutions: Option<u64>) -> Result<Vec<u8>, AllocError>
    ensures { IfOk result (λ text. text.items ≡ ending_text ending ++ statistics_text solutions) }
{
    let mut text = line_of(alloc, ending)?;
    if let Some(count) = solutions {
        text.extend_from_slice(&statistics(alloc, count)?)?;
    }
    Ok(text)
}

/// The line after the blocks.
fn line_of(alloc: Global, ending: Ending) -> Result<Vec<u8>, AllocError>
    ensures { IfOk result (λ text. text.items ≡ ending_text ending) }
{
    match ending {
        Ending::Complete => Vec::from_slice(alloc, b"==========\n"),
        Ending::Unsatisfiable => Vec::from_slice(alloc, b"=====UNSATISFIABLE=====\n"),
        Ending::Plain => Ok(Vec::new(alloc)),
    }
}

/// The two lines of statistics.
fn statistics(alloc: Global, count: u64) -> Result<Vec<u8>, AllocError>
    ensures { IfOk result (λ text. text.items ≡ count_text count) }
{
    let mut text = Vec::from_slice(alloc, b"%%%mznStat: nSolutions=")?;
    text.extend_from_slice(Buffer::new().format(count).as_bytes())?;
    text.extend_from_slice(b"\n%%%mznStatEnd\n")?;
    Ok(text)
}

/// The line that a generated model of that many items has in place of blocks: `items=4 best=17`, with the value of a best choice.
pub fn summary(alloc: Global, items: u32, best: i32) -> Result<Vec<u8>, AllocError>
    ensures { IfOk result (λ text. text.items ≡ summary_text items best) }
{
    let mut number = Buffer::new();
    let mut text = Vec::from_slice(alloc, b"items=")?;
    text.extend_from_slice(number.format(items).as_bytes())?;
    text.extend_from_slice(b" best=")?;
    text.extend_from_slice(number.format(best).as_bytes())?;
    text.extend_from_slice(b"\n")?;
    Ok(text)
}

/// The two lines that a refusal prints, as `% line 1, column 8: E02` and `=====ERROR=====`.
pub fn refusal(alloc: Global, refusal: &Refusal) -> Result<Vec<u8>, AllocError>
    ensures { IfOk result (λ text. text.items ≡ text_of refusal.now) }
{
    let mut number = Buffer::new();
    let mut text = Vec::from_slice(alloc, b"% line ")?;
    text.extend_from_slice(number.format(refusal.line).as_bytes())?;
    text.extend_from_slice(b", column ")?;
    text.extend_from_slice(number.format(refusal.column).as_bytes())?;
    text.extend_from_slice(if refusal.code < 10 { b": E0" } else { b": E" })?;
    text.extend_from_slice(number.format(refusal.code).as_bytes())?;
    text.extend_from_slice(b"\n=====ERROR=====\n")?;
    Ok(text)
}

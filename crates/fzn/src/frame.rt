//! What the run of a part prints around its blocks.
ghost use Rattle.std.specs.Prelude.{◌≡◌, ◌++◌, ◌<◌, ◌^◌, ◌-◌, IfOk, OnOk, OnErr, option_copied};
ghost use Rattle.fz_io.specs.Outside.{with_more};
ghost use Rattle.fz_printer.specs.Texts.{ending_after, TakesFront, HasStopCause};
ghost use Rattle.fz_runs.specs.PartRuns.{ending_line, part_line, value_text};
ghost use Rattle.fzn.specs.Steps.{part_end, value_after};

use fz_io::outside::Sink;
use fz_model::assignment::{Assignment, value_of};
use fz_part::Part;
use fz_printer::{Stop, put};
use fz_search::Tally;
use fz_spec::goal::Goal;
use fz_spec::term::Term;
use itoa::Buffer;
use std::alloc::{AllocError, Global};

/// Prints the first line, as `%%%part 0=3,5!=2 bound 17`.
pub(crate) fn put_line<S: Sink>(
    alloc: Global,
    sink: &mut S,
    part: &Part,
    better: Option<i32>,
) -> Result<(), Stop>
    requires { S.faults sink.old < 2 ^ 64 - 1 }
    ensures taken { OnOk result
        (S.taken sink.new ≡ with_more (S.taken sink.old) (part_line part.now better)) }
    ensures front { OnErr result
        (TakesFront (part_line part.now better) (S.taken sink.old) (S.taken sink.new)) }
    ensures cause { HasStopCause (S.faults sink.old) (S.faults sink.new) result }
{
    match line_of(alloc, part, better) {
        Ok(line) => put(sink, &line),
        Err(_) => Err(Stop::Memory),
    }
}

fn line_of(alloc: Global, part: &Part, better: Option<i32>) -> Result<Vec<u8>, AllocError>
    ensures { IfOk result (λ line. line.items ≡ part_line part.now better) }
{
    let mut line = Vec::from_slice(alloc, b"%%%part ")?;
    part.print(&mut line)?;
    if let Some(value) = better {
        line.extend_from_slice(b" bound ")?;
        line.extend_from_slice(Buffer::new().format(value).as_bytes())?;
    }
    line.push(b'\n')?;
    Ok(line)
}

/// Prints what stands after the blocks: the value of the last that is listed, where there is a goal, and the ending.
pub(crate) fn put_end<S: Sink>(
    alloc: Global,
    sink: &mut S,
    goal: &Goal,
    tally: Tally,
    last: Option<&Assignment>,
) -> Result<(), Stop>
    requires { S.faults sink.old < 2 ^ 64 - 1 }
    ensures taken { OnOk result (S.taken sink.new ≡ with_more (S.taken sink.old)
        (part_end goal.now tally.count (option_copied last.entry) tally.complete)) }
    ensures front { OnErr result
        (TakesFront (part_end goal.now tally.count (option_copied last.entry) tally.complete)
        (S.taken sink.old) (S.taken sink.new)) }
    ensures cause { HasStopCause (S.faults sink.old) (S.faults sink.new) result }
{
    match end_of(alloc, goal, tally, last) {
        Ok(text) => put(sink, &text),
        Err(_) => Err(Stop::Memory),
    }
}

fn end_of(
    alloc: Global,
    goal: &Goal,
    tally: Tally,
    last: Option<&Assignment>,
) -> Result<Vec<u8>, AllocError>
    ensures { IfOk result (λ text. text.items
        ≡ part_end goal.now tally.count (option_copied last.entry) tally.complete) }
{
    let mut text = Vec::new(alloc);
    push_value(&mut text, goal, last)?;
    text.extend_from_slice(ending_of(tally))?;
    Ok(text)
}

/// Appends the line of the value, as `%%%value 17`.
fn push_value(text: &mut Vec<u8>, goal: &Goal, last: Option<&Assignment>) -> Result<(), AllocError>
    ensures { OnOk result
        (text.new.items ≡ text.old.items ++ value_after goal.now (option_copied last.entry)) }
{
    match goal {
        Goal::Satisfy => Ok(()),
        Goal::Minimize(term) => push_value_of(text, *term, last),
        Goal::Maximize(term) => push_value_of(text, *term, last),
    }
}

fn push_value_of(
    text: &mut Vec<u8>,
    term: Term,
    last: Option<&Assignment>,
) -> Result<(), AllocError>
    ensures { OnOk result
        (text.new.items ≡ text.old.items ++ value_text term (option_copied last.entry)) }
{
    let Some(best) = last else {
        return Ok(());
    };
    let value = value_of(term, best.values());
    text.extend_from_slice(b"%%%value ")?;
    text.extend_from_slice(Buffer::new().format(value).as_bytes())?;
    text.push(b'\n')?;
    Ok(())
}

/// The last line: the one that ends a whole run behind `%%%`, or `%%%` alone.
fn ending_of(tally: Tally) -> &'static [u8]
    ensures { result.now ≡ ending_line (ending_after tally.complete tally.count) }
{
    if !tally.complete {
        return b"%%%\n";
    }
    if tally.count == 0 {
        b"%%%=====UNSATISFIABLE=====\n"
    } else {
        b"%%%==========\n"
    }
}

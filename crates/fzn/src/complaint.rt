//! What the program says on standard error.
ghost use Rattle.std.specs.Prelude.{◌≡◌, None, Ok, IfOk, fold, map, option_map, option_copied, string_bytes};
ghost use Rattle.fz_cmd.specs.Meaning.{options_of};
ghost use Rattle.fzn.specs.Complaints as complaints;
ghost use Rattle.fzn.specs.declared.status.Status.TheVariants.{Done};

use crate::status::{Misfit, Status};
use fz_cmd::Options;
use fz_cmd::options::{OPTIONS, Row};
use fz_cmd::words::options;
use fz_print::refusal::Refusal;
use itoa::Buffer;
use std::alloc::{AllocError, Global};

/// What is wrong with a text, by the number of the code.
pub const FAULTS: [&str; 12] = [
    "",
    "no token begins here",
    "the number is outside -2147483646..2147483646",
    "unexpected here",
    "the name is declared already",
    "unknown name",
    "wrong type",
    "wrong number of arguments",
    "unknown constraint",
    "not supported",
    "the lengths do not fit",
    "over a limit",
];

/// The line for standard error after a run of these words. Where it is done there is none, and no memory is asked for.
pub fn complaint_of(
    alloc: Global,
    words: &[String],
    status: &Status,
) -> Result<Option<String>, AllocError>
    ensures line { IfOk result (λ line. option_map string_bytes line
        ≡ complaints.complaint_of (map string_bytes words.now) status.now) }
    ensures done { status.now ≡ Done → result ≡ Ok None }
{
    if let Status::Done = status {
        return Ok(None);
    }
    let options = options(alloc, words)?;
    complaint_about(alloc, shown_name(options.as_ref()), status)
}

/// The line for standard error of a status, by the name of the text.
fn complaint_about(alloc: Global, name: &str, status: &Status) -> Result<Option<String>, AllocError>
    ensures { IfOk result (λ line. option_map string_bytes line
        ≡ complaints.complaint_text name.now status.now) }
{
    let line = match status {
        Status::Done => return Ok(None),
        Status::Refused(refusal) => refusal_line(alloc, name, refusal)?,
        Status::Usage => usage(alloc)?,
        Status::SourceFault => format!(in alloc; "{name}: cannot be opened or read")?,
        Status::SinkFault => String::from_str(alloc, "standard output: a write failed")?,
        Status::NoMemory => String::from_str(alloc, "fzn: out of memory")?,
        Status::NoTask(misfit) => String::from_str(alloc, misfit_text(*misfit))?,
    };
    Ok(Some(line))
}

/// How the program is called: a line for each option, with its range, and what is done without it.
fn usage(alloc: Global) -> Result<String, AllocError>
    ensures { IfOk result (λ text. string_bytes text ≡ complaints.usage) }
{
    let mut text = with_usages(alloc, "usage: fzn [options] [FILE]\n", &OPTIONS)?;
    text.push_str("  FILE                   the text; - is standard input, as is no FILE")?;
    Ok(text)
}

/// A heading, and a line for each of these options.
fn with_usages(alloc: Global, heading: &str, rows: &[Row]) -> Result<String, AllocError>
    ensures { IfOk result (λ text. string_bytes text
        ≡ fold complaints.with_usage heading.now (map (λ r. r.3.now) rows.now)) }
{
    let mut text = String::from_str(alloc, heading)?;
    for i in 0..rows.len() {
        text.push_str("  ")?;
        text.push_str(rows[i].3)?;
        text.push_str("\n")?;
    }
    Ok(text)
}

/// The name of the text that the options name.
fn shown_name(options: Option<&Options>) -> &str
    ensures { result.now ≡ complaints.name_of (option_copied options.entry) }
{
    match options {
        Some(options) => match options.file().as_str() {
            "-" => "standard input",
            file => file,
        },
        None => "",
    }
}

/// A line as `model.fzn:1:19: unknown name`.
fn refusal_line(alloc: Global, name: &str, refusal: &Refusal) -> Result<String, AllocError>
    ensures { IfOk result
        (λ line. string_bytes line ≡ complaints.refusal_line name.now refusal.now) }
{
    let mut number = Buffer::new();
    let mut text = String::from_str(alloc, name)?;
    text.push_str(":")?;
    text.push_str(number.format(refusal.line))?;
    text.push_str(":")?;
    text.push_str(number.format(refusal.column))?;
    text.push_str(": ")?;
    text.push_str(fault_text(refusal.code))?;
    Ok(text)
}

fn fault_text(code: u8) -> &'static str
    ensures { result.now ≡ complaints.fault_text code }
{
    match FAULTS.get(code as usize) {
        Some(text) => text,
        None => "",
    }
}

/// Why the model has no such part.
fn misfit_text(misfit: Misfit) -> &'static str
    ensures { result.now ≡ complaints.misfit_text misfit }
{
    match misfit {
        Misfit::NoPart(fz_part::Refusal::NotAPart) => "--part: not of the form 0=3,5!=2,5<=7,9>4",
        Misfit::NoPart(fz_part::Refusal::NoVariable) => "--part: a variable that the model lacks",
        Misfit::NoPart(fz_part::Refusal::OutOfRange) =>
            "--part: a value that its variable cannot have",
        Misfit::NoGoal => "--better: the model has no goal",
        Misfit::TooMany => "--part: too many decisions",
    }
}

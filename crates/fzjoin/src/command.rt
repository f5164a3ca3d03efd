//! The program over the real files and streams. No clause reaches what these hold, so it is kept short.
ghost use Rattle.std.specs.Prelude.{◌≡◌};
ghost use Rattle.std.specs.Process.{exit_status};
ghost use Rattle.fzjoin.specs.Answers.{code_of};

use crate::run::fzjoin;
use crate::status::JoinStatus;
use fz_io::file::FileSource;
use fz_io::output::OutSink;
use std::alloc::AllocGlobal;
use std::env::Env;
use std::fs::Files;
use std::io::{Eprint, ErrorKind, Input, Write};
use std::process::ExitCode;
use std::{env, io};

/// How the program is called.
pub const USAGE: &str = "usage: fzjoin [-a] FILE PARTS < TEXTS";

/// Runs the program with its arguments over a writer for what it prints, says on standard error what is wrong, and answers the exit
/// status.
pub fn program<R: Env + Files + Input + Eprint + AllocGlobal + Copy, W: Write + Drop>(
    rt: R,
    out: W,
) -> ExitCode {
    let arguments = match env::args(&rt) {
        Ok(arguments) => arguments,
        Err(fault) => return ending(&rt, untaken(&fault)),
    };
    let Ok(words) = arguments.skip(1).collect::<Vec<String>>(rt.alloc()) else {
        return ending(&rt, JoinStatus::NoMemory);
    };
    let mut sink = OutSink::new(out);
    let mut source = FileSource::new(rt);
    let status = fzjoin(rt.alloc(), &words, &mut source, &mut sink);
    ending(&rt, status)
}

/// The answer where the arguments can't be taken: memory was refused, or one of them is no text.
fn untaken(fault: &io::Error) -> JoinStatus {
    match fault.kind() {
        ErrorKind::OutOfMemory => JoinStatus::NoMemory,
        _ => JoinStatus::Usage,
    }
}

/// Says on standard error what is wrong, and answers the exit status.
fn ending<R: Eprint + AllocGlobal>(rt: &R, status: JoinStatus) -> ExitCode
    ensures { exit_status result ≡ code_of status }
{
    complain(rt, status);
    ExitCode::from(status.code())
}

/// Says on standard error what is wrong. Parts are counted from 1.
fn complain<R: Eprint + AllocGlobal>(rt: &R, status: JoinStatus) {
    let _ = match status {
        JoinStatus::Done => Ok(()),
        JoinStatus::Usage => eprintln!(rt; "{USAGE}"),
        JoinStatus::SourceFault => eprintln!(rt; "fzjoin: a file can't be read"),
        JoinStatus::SinkFault => eprintln!(rt; "fzjoin: standard output can't be written"),
        JoinStatus::Refused(_) => eprintln!(rt; "fzjoin: the model is refused"),
        JoinStatus::NoMemory => eprintln!(rt; "fzjoin: out of memory"),
        JoinStatus::NoParts(line) => {
            eprintln!(rt; "fzjoin: line {line} of PARTS is of no part of the model")
        }
        JoinStatus::SameParts => eprintln!(rt; "fzjoin: two lines of PARTS are the same"),
        JoinStatus::CutOff => {
            eprintln!(rt; "fzjoin: a text is cut off, or a line of it is of no run")
        }
        JoinStatus::Part(place) => {
            let number = place.saturating_add(1);
            eprintln!(rt; "fzjoin: part {number} has no text, or more than one")
        }
        JoinStatus::Bound => {
            eprintln!(rt; "fzjoin: a run was to better a value that no run shows")
        }
        JoinStatus::NoSolution => eprintln!(rt; "fzjoin: a block is of no solution"),
    };
}

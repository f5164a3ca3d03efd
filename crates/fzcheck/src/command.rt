//! The program over the real files and streams. No clause reaches what these hold, so it is kept short.
ghost use Rattle.std.specs.Prelude.{◌≡◌};
ghost use Rattle.std.specs.Process.{exit_status};
ghost use Rattle.fzcheck.specs.Answers.{code_of};

use crate::run::fzcheck;
use crate::status::CheckStatus;
use fz_io::file::FileSource;
use fz_io::output::OutSink;
use std::alloc::AllocGlobal;
use std::env::Env;
use std::fs::Files;
use std::io::{Eprint, ErrorKind, Input, Write};
use std::process::ExitCode;
use std::{env, io};

/// How the program is called.
pub const USAGE: &str = "usage: fzcheck MODEL OUTPUT";

/// Runs the program with its arguments over a writer for what it prints, says on standard error how it is called where that was
/// wrong, and answers the exit status.
pub fn program<R: Env + Files + Input + Eprint + AllocGlobal + Copy, W: Write + Drop>(
    rt: R,
    out: W,
) -> ExitCode {
    let arguments = match env::args(&rt) {
        Ok(arguments) => arguments,
        Err(fault) => return ending(&rt, untaken(&fault)),
    };
    let Ok(words) = arguments.skip(1).collect::<Vec<String>>(rt.alloc()) else {
        return ending(&rt, CheckStatus::NoMemory);
    };
    let mut sink = OutSink::new(out);
    let mut source = FileSource::new(rt);
    let status = fzcheck(rt.alloc(), &words, &mut source, &mut sink);
    ending(&rt, status)
}

/// The answer where the arguments can't be taken: memory was refused, or one of them is no text.
fn untaken(fault: &io::Error) -> CheckStatus {
    match fault.kind() {
        ErrorKind::OutOfMemory => CheckStatus::NoMemory,
        _ => CheckStatus::Usage,
    }
}

/// Says on standard error how the program is called, where that was wrong, and answers the exit status.
fn ending<R: Eprint + AllocGlobal>(rt: &R, status: CheckStatus) -> ExitCode
    ensures { exit_status result ≡ code_of status }
{
    if status == CheckStatus::Usage {
        let _ = eprintln!(rt; "{USAGE}");
    }
    ExitCode::from(status.code())
}

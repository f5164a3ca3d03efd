//! The program over the real files and streams. No clause reaches what these hold, so it is kept short.
ghost use Rattle.std.specs.Prelude.{◌≡◌, ◌≢◌};
ghost use Rattle.std.specs.IoError.{error_kind};
ghost use Rattle.std.specs.Process.{exit_status};
ghost use Rattle.fzn.specs.Promises.{code_of};

use crate::complaint::complaint_of;
use crate::run::fzn;
use crate::status::Status;
use fz_io::buffered::BufferedSink;
use fz_io::file::FileSource;
use fz_io::gate::NoGate;
use fz_io::output::OutSink;
use fz_io::paced::PacedSink;
use std::alloc::AllocGlobal;
use std::env::Env;
use std::fs::Files;
use std::io::{Eprint, ErrorKind, Input, Write};
use std::process::ExitCode;
use std::rt::Clock;
use std::sync::Wait;
use std::thread::Threads;
use std::{env, io};

/// Runs the program with its arguments over a writer for what it prints, says on standard error what is wrong, and answers the exit
/// status.
pub fn program<
    R: Env + Files + Input + Eprint + AllocGlobal + Clock + Threads + Wait + Send + Sync + Copy,
    W: Write + Drop + Send,
>(rt: R, out: W) -> ExitCode {
    let arguments = match env::args(&rt) {
        Ok(arguments) => arguments,
        Err(fault) => return ending(&rt, &[], untaken(&fault)),
    };
    let Ok(words) = arguments.skip(1).collect::<Vec<String>>(rt.alloc()) else {
        return ending(&rt, &[], Status::NoMemory);
    };
    let status = over_streams(&rt, out, &words);
    ending(&rt, &words, status)
}

/// The answer where the arguments can't be taken: memory was refused, or one of them is no text.
fn untaken(fault: &io::Error) -> Status
    ensures memory { error_kind fault.now ≡ ErrorKind.OutOfMemory → result ≡ Status.NoMemory }
    ensures words { error_kind fault.now ≢ ErrorKind.OutOfMemory → result ≡ Status.Usage }
{
    match fault.kind() {
        ErrorKind::OutOfMemory => Status::NoMemory,
        _ => Status::Usage,
    }
}

/// The run of these words over files, standard input and this writer, which is handed what is printed within a tenth of a second.
fn over_streams<
    R: Files + Input + AllocGlobal + Clock + Threads + Wait + Send + Sync + Copy,
    W: Write + Drop + Send,
>(rt: &R, out: W, words: &[String]) -> Status {
    let alloc = rt.alloc();
    let Ok(buffered) = BufferedSink::new(alloc, OutSink::new(out)) else {
        return Status::NoMemory;
    };
    let mut sink = PacedSink::new(*rt, buffered);
    let mut source = FileSource::new(*rt);
    fzn(rt, alloc, words, &mut source, &mut sink, &NoGate)
}

/// Says on standard error what is wrong, and answers the exit status.
fn ending<R: Eprint + AllocGlobal>(rt: &R, words: &[String], status: Status) -> ExitCode
    ensures { exit_status result ≡ code_of status }
{
    match complaint_of(rt.alloc(), words, &status) {
        Ok(None) => {}
        Ok(Some(line)) => {
            let _ = eprintln!(rt; "{line}");
        }
        Err(_) => {
            let _ = eprintln!(rt; "fzn: out of memory");
        }
    }
    exit_of(&status)
}

/// The exit status of an answer.
pub fn exit_of(status: &Status) -> ExitCode
    ensures { exit_status result ≡ code_of status.now }
{
    ExitCode::from(status.code())
}

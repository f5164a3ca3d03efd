//! Cases of calls with parts of the two programs, read from files: domains, frontiers, spaces, paths, books, machines, and the truth of
//! constraints. Each call is made, and its answer compared with what the case says. Printed is a line for each file, and what differs.
#![tactic(auto)]

mod books;
mod calls;
mod collecting;
mod domains;
mod frontiers;
mod machines;
mod models;
mod paths;
mod portfolios;
mod seeds;
mod spaces;
mod steps;
mod values;

use calls::answer_of;
use fz_script::Report;
use std::alloc::AllocGlobal;
use std::env::Env;
use std::fs::Files;
use std::io::Print;
use std::process::ExitCode;
use std::sync::Wait;
use std::thread::Threads;
use std::{env, fs, io};

fn main(rt: HostRuntime) -> ExitCode {
    match run_all(&rt) {
        Ok(()) => ExitCode::SUCCESS,
        Err(_) => ExitCode::FAILURE,
    }
}

/// Runs the cases of the files that the arguments name, and prints what comes of them.
fn run_all<R: Env + Files + Print + AllocGlobal + Threads + Wait + Sync>(rt: &R) -> io::Result<()> {
    for name in env::args(rt)?.skip(1) {
        let text = fs::read_to_string(rt, &name)?;
        let mut report = Report::new(rt.alloc(), &name);
        for case in &report.cases(&text)? {
            report.begin(case)?;
            for call in &case.calls {
                let answer = answer_of(rt, rt.alloc(), case, call)?;
                report.compare(case, call, answer)?;
            }
        }
        let told = report.text()?;
        print!(rt; "{told}")?;
    }
    Ok(())
}

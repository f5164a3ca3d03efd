//! The program `fzjoin`. All of it is the call `fzjoin::program`.
#![tactic(auto)]

use std::process::ExitCode;

fn main(rt: HostRuntime) -> ExitCode {
    fzjoin::program(rt, rt.stdout())
}

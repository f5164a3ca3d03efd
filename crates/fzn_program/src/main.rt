//! The program `fzn`. All of it is the call `fzn::program`.
#![tactic(auto)]

use std::process::ExitCode;

fn main(rt: HostRuntime) -> ExitCode {
    fzn::program(rt, rt.stdout())
}

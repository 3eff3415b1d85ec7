//! The program `eifcheck`.
#![tactic(auto)]

use std::process::ExitCode;

fn main(rt: HostRuntime) -> ExitCode {
    eifcheck::program(&rt)
}

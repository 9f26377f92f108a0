//! The program: it runs the script that its command line names.
#![tactic(auto)]

use std::process::ExitCode;

fn main(rt: HostRuntime) -> ExitCode {
    nd_desk::status(&rt)
}

//! The program with a flag that it doesn't know: status 64, and nothing on standard output.
#![tactic(auto)]

use balise_cli::Baliseplan;
use balise_program::launch_on_system;
use std::process::ExitCode;

fn main(rt: HostRuntime) -> ExitCode {
    launch_on_system!(rt, Baliseplan)
}

//! The program asked for help: status 0, and the text on standard output.
#![tactic(auto)]

use balise_cli::Baliseplan;
use balise_program::launch_on_system;
use std::process::ExitCode;

fn main(rt: HostRuntime) -> ExitCode {
    launch_on_system!(rt, Baliseplan)
}
